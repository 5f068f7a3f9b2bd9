// Replays stored recordings: reads recordings, each with the text that is due for it, from standard input, plays them block by block, and tells
// how many it compared and how many differ. `oracle/store` writes them (oracle/src/stored_recordings.rs has their layout).
#![tactic(auto)]

use job::{Begun, Ending};
use replay::Played;
use std::io;
use stored::{at_most, same_text, unwritten};

// A stored recording begins with two u16: the length of its file, and of the text that is due. Both follow.
const HEAD: usize = 4;

// Room for the last line.
const LINE: usize = 64;

// What a block's room holds before it is played.
const UNWRITTEN: u8 = 165;

// Where `used` bytes more end, or where the bytes end.
fn after(at: usize, used: usize, len: usize) -> usize {
    let from = at_most(at, len);
    from + at_most(used, len - from)
}

// Whether the first n bytes of out are the next of the text that is due, from an index on, and nothing was written past them.
fn same_next(out: &[u8], n: usize, due: &[u8], at: usize) -> bool {
    let from = at_most(at, due.len());
    let to = from + at_most(n, due.len() - from);
    same_text(out, n, &due[from..to]) && unwritten(out, n, UNWRITTEN)
}

// Whether a replay's last line is what is left of the text that is due.
fn same_last(end: Ending, due: &[u8], at: usize) -> bool {
    let mut line = [0u8; LINE];
    let from = at_most(at, due.len());
    job::last_line(end, &mut line).is_ok_and(|n| same_text(&line, n, &due[from..]))
}

// Whether the blocks of a recording, played from the rota that its job begins with, have the text that is due.
fn same_blocks(blocks: &[u8], due: &[u8], b: Begun) -> bool {
    let starts = b.starts;
    let ends = b.ends;
    let avail = b.avail;
    let begins = b.begins;
    let frozen = b.frozen;
    let targets = b.targets;
    let mut owners = b.owners;
    let mut sets = b.sets;
    let mut minutes = b.minutes;
    let mut totals = b.totals;
    let mut at: usize = 0;
    let mut shown: usize = 0;
    for block in 0..=replay::BLOCKS_MOST {
        let mut out = [UNWRITTEN; 65536];
        let from = at_most(at, blocks.len());
        let played = replay::play_block(
            &blocks[from..],
            block,
            b.people,
            b.slots,
            b.units,
            &starts,
            &ends,
            &avail,
            &begins,
            &frozen,
            &targets,
            &mut owners,
            &mut sets,
            &mut minutes,
            &mut totals,
            &mut out,
        );
        match played {
            Played::More { length, next } => {
                if !same_next(&out, length, due, shown) {
                    return false;
                }
                at = after(from, next, blocks.len());
                shown = after(shown, length, due.len());
            }
            Played::Last { length, end } => {
                let same = same_next(&out, length, due, shown);
                return same && same_last(end, due, after(shown, length, due.len()));
            }
        }
    }
    false
}

// Whether a recording has the text that is due, and nothing besides is written.
fn as_due(file: &[u8], due: &[u8]) -> bool {
    let end = at_most(replay::job_end(file), file.len());
    let b = job::begin(&file[..end], true);
    let refusal = b.refusal;
    if refusal.number == 0 {
        return same_blocks(&file[end..], due, b);
    }
    same_last(Ending::Refused(refusal), due, 0)
}

fn main(rt: HostRuntime) -> io::Result<()> {
    let t = stored::compare_bodies(
        &mut rt.stdin(),
        &mut [0u8; HEAD],
        2,
        |t, _, file, due| t.with(as_due(file, due)),
    )?;
    stored::print(&rt, t, "")
}
