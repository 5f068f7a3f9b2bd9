// The way back from one rota to another: for each unit whose owner differs a reassign to its old owner, written into lent columns.
#![tactic(auto)]

mod search;
mod ways;
mod writing;

pub use ways::way_back;

// What a way back comes to: that many draws, or no way by reassigns on account of a unit.
#[derive(Clone, Copy)]
pub enum Way {
    Draws(usize),
    NoWay(usize),
}
