// A job file in, its listing out, all on lent slices.
#![tactic(auto)]

mod columns;
mod fields;
mod file;
mod lent;
mod listing;
mod owning;
mod parts;
mod play;
mod prepare;
mod recorded;
mod run;
mod shown;

pub use file::FILE_MOST;
pub use lent::begin_recording;
pub use listing::refusal_line;
use paper::Refusal;
pub use recorded::begin;
pub use run::{LISTING_MOST, run_job};
pub use shown::{block_refusal, last_line, put_block};

// The atomic slots.
#[derive(Clone, Copy)]
pub struct Atoms {
    pub count: usize,
    pub starts: [u32; 1024],
    pub ends: [u32; 1024],
}

// The atomic slots of a job with everybody's availability.
#[derive(Clone, Copy)]
pub struct JobSlots {
    pub count: usize,
    pub starts: [u32; 1024],
    pub ends: [u32; 1024],
    pub avail: [u64; 512],
}

// The units of a job.
#[derive(Clone, Copy)]
pub struct JobUnits {
    pub count: usize,
    pub begins: [u16; 1024],
}

// Sets, minutes and totals from the owners.
#[derive(Clone, Copy)]
pub struct Started {
    pub sets: [u64; 512],
    pub minutes: [u64; 32],
    pub totals: [u64; 2],
}

// What a play goes by, and the rota before the draws.
#[derive(Clone, Copy)]
pub struct Prepared {
    pub people: usize,
    pub slots: usize,
    pub starts: [u32; 1024],
    pub ends: [u32; 1024],
    pub avail: [u64; 512],
    pub units: usize,
    pub begins: [u16; 1024],
    pub frozen: [u64; 16],
    pub targets: [i64; 32],
    pub owners: [u8; 1024],
    pub sets: [u64; 512],
    pub minutes: [u64; 32],
    pub totals: [u64; 2],
}

// What a play leaves.
#[derive(Clone, Copy)]
pub struct Played {
    pub owners: [u8; 1024],
    pub minutes: [u64; 32],
    pub totals: [u64; 2],
    pub answers: [u8; 1024],
}

// The job of a recording: the refusal; or, where its number is 0, what a play goes by and the rota before the first block.
#[derive(Clone, Copy)]
pub struct Begun {
    pub refusal: Refusal,
    pub people: usize,
    pub slots: usize,
    pub starts: [u32; 1024],
    pub ends: [u32; 1024],
    pub avail: [u64; 512],
    pub units: usize,
    pub begins: [u16; 1024],
    pub frozen: [u64; 16],
    pub targets: [i64; 32],
    pub owners: [u8; 1024],
    pub sets: [u64; 512],
    pub minutes: [u64; 32],
    pub totals: [u64; 2],
}

// How a replay ends: every answer agrees; the first that differs, by its block and its place there; or the refusal.
#[derive(Clone, Copy)]
pub enum Ending {
    Agrees,
    Differs { block: usize, place: usize },
    Refused(Refusal),
}
