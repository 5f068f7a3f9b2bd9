// A store of settings in a lent area: records one after the other in its used bytes, numbered from 1 in order of saving.
#![tactic(auto)]

mod entries;
mod figures;
mod walk;

pub use entries::{ask, count, save};
use units::Settings;

// The most records of a store.
pub const RECORDS_MOST: usize = 128;

// Settings that were saved: the record's number, and the used length with it.
#[derive(Clone, Copy)]
pub struct Saved {
    pub number: u64,
    pub used: u64,
}

// The settings asked for; or Newer, of a record that a newer writer kept.
#[derive(Clone, Copy)]
pub enum Asked {
    Is(Settings),
    Newer,
}

// What a number stands for, before its figures are judged.
#[derive(Clone, Copy)]
pub(crate) enum Kept {
    Figures(Settings),
    Newer,
    Unknown,
}
