// Replays stored targets, the Rust's of edition 1 and those of edition 2 over the Rust's rounded ones: reads records from standard input,
// works the targets out, and tells how many lists it compared and how many differ. `oracle/store` writes the records
// (oracle/src/stored.rs has their layout).
#![tactic(auto)]

use std::io;
use stored::{half, plus, quad, quads};

// A record: people, slots, fairness, edition; the slots; who can cover which; the figures; the targets.
const RECORD: usize = 200;

const STARTS_AT: usize = 8;

const ENDS_AT: usize = 32;

const ABLE_AT: usize = 56;

const ABOVE_AT: usize = 72;

const BELOW_AT: usize = 104;

const PRIORS_AT: usize = 136;

const TARGETS_AT: usize = 168;

// Six numbers at an index.
fn six(b: &[u8], at: usize) -> [u32; 6] {
    let mut out = [0u32; 6];
    quads(b, at, &mut out);
    out
}

// Eight numbers at an index.
fn eight(b: &[u8], at: usize) -> [u32; 8] {
    let mut out = [0u32; 8];
    quads(b, at, &mut out);
    out
}

// Who can cover which slot: a u16 a person, as sets of 16 words.
fn sets(b: &[u8]) -> [u64; 128] {
    let mut out = [0u64; 128];
    for j in 0..8usize {
        out[16 * j] = half(b, plus(ABLE_AT, 2 * j)) as u64;
    }
    out
}

fn wide(x: u32) -> u64 {
    x as u64
}

// A capacity: one number divided by another, which is not 0.
fn ratio(above: u32, below: u32) -> f64 {
    std::num::nearest_u64_to_f64(wide(above)) / std::num::nearest_u64_to_f64(wide(below))
}

// Everybody's capacity.
fn capacities(b: &[u8]) -> [f64; 8] {
    let mut out = [0.0f64; 8];
    for j in 0..8usize {
        out[j] = ratio(
            quad(b, plus(ABOVE_AT, 4 * j)),
            quad(b, plus(BELOW_AT, 4 * j)),
        );
    }
    out
}

// Whether a target is the one at an index, stored with 2 ^ 31 added. As floats, both are exact.
fn is_target(t: i64, b: &[u8], at: usize) -> bool {
    std::num::nearest_i64_to_f64(t) + 2147483648.0
        == std::num::nearest_u64_to_f64(wide(quad(b, at)))
}

// Whether all targets of a record are those stored.
fn same_targets(b: &[u8]) -> bool {
    let people = half(b, 0);
    let slots = half(b, 2);
    let starts = six(b, STARTS_AT);
    let ends = six(b, ENDS_AT);
    let avail = sets(b);
    let caps = capacities(b);
    let priors = eight(b, PRIORS_AT);
    let fairness = if half(b, 4) == 1 { 1u8 } else { 0u8 };
    let edition = if half(b, 6) == 1 { 1u8 } else { 0u8 };
    let mut out = [0i64; 8];
    let number = targets::compute_targets(
        people, slots, fairness, edition, &starts, &ends, &avail, &caps, &priors, &mut out,
    );
    let mut same = number == 0;
    for k in 0..8usize {
        if k < people {
            if is_target(out[k], b, plus(TARGETS_AT, 4 * k)) {} else {
                same = false;
            }
        }
    }
    same
}

fn main(rt: HostRuntime) -> io::Result<()> {
    let t = stored::compare_each(
        &mut rt.stdin(),
        &mut [0u8; RECORD],
        |t, b| t.with(same_targets(b)),
    )?;
    stored::print(&rt, t, "")
}
