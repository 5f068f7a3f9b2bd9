// Replays stored verdicts on rotas made elsewhere, worked out by the generator's own scans: reads records from standard input, judges each
// rota, and tells how many it compared and how many differ. `oracle/store` writes the records (oracle/src/stored_elsewhere.rs has their
// layout).
#![tactic(auto)]

use std::io;
use stored::{half, quad, quads, raws, rows, shorts};
use usable::Verdict;

// A record: counts, figures, slots, units, who can cover which, frozen slots, published owners, owners, the verdict.
const RECORD: usize = 156;

const CAP_AT: usize = 8;

const REST_AT: usize = 12;

const STARTS_AT: usize = 16;

const ENDS_AT: usize = 48;

const UNITS_AT: usize = 80;

const ABLE_AT: usize = 96;

const FROZEN_AT: usize = 128;

const PUBLISHED_AT: usize = 136;

const OWNERS_AT: usize = 144;

const VERDICT_AT: usize = 152;

const SLOT_AT: usize = 154;

// What is due where no slot is named; and the refusal of cap and rest, the only one that is stored.
const NO_SLOT: usize = 65535;

const REFUSED: usize = 107;

// Whether a verdict is the one that is due: 0 usable, a broken rule with its slot, or the refusal.
fn is_due(verdict: Result<Verdict, u8>, due: usize, at: usize) -> bool {
    match verdict {
        Ok(Verdict::Usable) => due == 0 && at == NO_SLOT,
        Ok(Verdict::Broken { rule, slot }) => rule as usize == due && slot == at,
        Err(n) => n == 7 && due == REFUSED,
    }
}

// The verdict on the rota of a record.
fn judged(b: &[u8]) -> Result<Verdict, u8> {
    let mut starts = [0u32; 8];
    let mut ends = [0u32; 8];
    let mut units = [0u16; 8];
    let mut avail = [0u64; 64];
    let mut frozen = [0u64; 16];
    let mut published = [0u8; 8];
    let mut owners = [0u8; 8];
    quads(b, STARTS_AT, &mut starts);
    quads(b, ENDS_AT, &mut ends);
    shorts(b, UNITS_AT, &mut units);
    rows(b, ABLE_AT, &mut avail);
    rows(b, FROZEN_AT, &mut frozen);
    raws(b, PUBLISHED_AT, &mut published);
    raws(b, OWNERS_AT, &mut owners);
    usable::may_be_used(
        half(b, 0),
        half(b, 2),
        half(b, 4),
        quad(b, CAP_AT),
        quad(b, REST_AT),
        &starts,
        &ends,
        &avail,
        &units,
        &frozen,
        &published,
        &owners,
    )
}

// Whether a record's rota has the verdict that is due.
fn as_due(b: &[u8]) -> bool {
    is_due(judged(b), half(b, VERDICT_AT), half(b, SLOT_AT))
}

fn main(rt: HostRuntime) -> io::Result<()> {
    let t = stored::compare_each(
        &mut rt.stdin(),
        &mut [0u8; RECORD],
        |t, b| t.with(as_due(b)),
    )?;
    stored::print(&rt, t, "")
}
