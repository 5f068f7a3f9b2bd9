// Records: body length u16, kind u16, body, lowest byte first. Their fields, the walk over a file of them, and writing one.
#![tactic(auto)]

mod blocks;
mod fields;
mod heads;
mod write;

pub use blocks::{Walked, walk};
pub use fields::field;
pub use heads::head_at;
pub use write::put_record;

// What stands at a place: a whole record, by the size of its body and its kind, or none.
#[derive(Clone, Copy)]
pub enum Head {
    Whole { size: usize, kind: usize },
    Nothing,
}
