// Past weeks retired: the leading units that are frozen whole go, the rest moves to the front, and new slots come behind it.
#![tactic(auto)]

mod asking;
mod column;
mod entry;
mod figures;
mod fresh;
mod going;
mod moving;
mod rolling;

pub use column::retire_column;
pub use entry::retire;

// What retiring comes to: how many slots went, how many slots and units there are then; or nothing or everything would go, and nothing is
// changed.
#[derive(Clone, Copy)]
pub enum Retiring {
    Retired {
        gone: usize,
        slots: usize,
        units: usize,
    },
    Nothing,
    Everything,
}
