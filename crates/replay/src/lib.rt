// A recording: a job, then blocks of draws with the answers that a live search gave. Read block by block, played, and compared.
#![tactic(auto)]

mod reading;
mod stage;

use job::Ending;
pub use reading::{job_end, read_block};
pub use stage::play_block;

// The most blocks of a recording.
pub const BLOCKS_MOST: usize = 65535;

// How many of the bytes that are left say what the next block is, however many follow: its most draws, and one record more.
pub const WINDOW_LEAST: usize = 12300;

// What stands at the front of the bytes after a job or a block: a block, by how many draws it has and where the next begins; or the end.
#[derive(Clone, Copy)]
pub enum BlockRead {
    Block { draws: usize, next: usize },
    End,
}

// What the next block came to: its text's length and where the one after it begins; or, where nothing comes after it, its text's length, 0 without
// one, and how the replay ends.
#[derive(Clone, Copy)]
pub enum Played {
    More { length: usize, next: usize },
    Last { length: usize, end: Ending },
}
