// Replays stored jobs: reads job files, each with the text that is due for it, from standard input, runs them, and tells how many it
// compared and how many differ. `oracle/store` writes them (oracle/src/stored_jobs.rs has their layout).
#![tactic(auto)]

use paper::Refusal;
use std::io;
use stored::{same_text, unwritten};

// A stored job begins with two u16: the length of its file, and of the text that is due. Both follow.
const HEAD: usize = 4;

// Room for the line of a refusal.
const LINE: usize = 64;

// What a listing's room holds before a job is run.
const UNWRITTEN: u8 = 165;

// Whether the line of a refusal is the text that is due.
fn same_line(refusal: Refusal, due: &[u8]) -> bool {
    let mut line = [0u8; LINE];
    job::refusal_line(refusal, &mut line).is_ok_and(|n| same_text(&line, n, due))
}

// Whether a job has the listing that is due, or is refused by the line that is due, and writes nothing besides.
fn as_due(file: &[u8], due: &[u8]) -> bool {
    let mut out = [UNWRITTEN; 65536];
    let answer = job::run_job(file, &mut out);
    match answer {
        Ok(n) => same_text(&out, n, due) && unwritten(&out, n, UNWRITTEN),
        Err(refusal) => same_line(refusal, due) && unwritten(&out, 0, UNWRITTEN),
    }
}

fn main(rt: HostRuntime) -> io::Result<()> {
    let t = stored::compare_bodies(
        &mut rt.stdin(),
        &mut [0u8; HEAD],
        2,
        |t, _, file, due| t.with(as_due(file, due)),
    )?;
    stored::print(&rt, t, "")
}
