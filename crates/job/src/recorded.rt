// The job of a recording, prepared for the blocks that follow it: as a job's file without draws.
ghost use Rattle.job.specs.Begun.{BegunIn, Blank, Copied};

use crate::file::read_file;
use crate::prepare::prepare;
use crate::run::read_refusal;
use crate::{Begun, Prepared};
use paper::Refusal;

// Nothing but the refusal.
fn not_begun(refusal: Refusal) -> Begun
    ensures { Blank refusal result }
{
    Begun {
        refusal,
        people: 0,
        slots: 0,
        starts: [0; 1024],
        ends: [0; 1024],
        avail: [0; 512],
        units: 0,
        begins: [0; 1024],
        frozen: [0; 16],
        targets: [0; 32],
        owners: [0; 1024],
        sets: [0; 512],
        minutes: [0; 32],
        totals: [0; 2],
    }
}

// All that was prepared.
fn begun_of(p: Prepared) -> Begun
    ensures { Copied p result }
{
    let starts = p.starts;
    let ends = p.ends;
    let avail = p.avail;
    let begins = p.begins;
    let frozen = p.frozen;
    let targets = p.targets;
    let owners = p.owners;
    let sets = p.sets;
    let minutes = p.minutes;
    let totals = p.totals;
    let refusal = paper::accepted();
    Begun {
        refusal,
        people: p.people,
        slots: p.slots,
        starts,
        ends,
        avail,
        units: p.units,
        begins,
        frozen,
        targets,
        owners,
        sets,
        minutes,
        totals,
    }
}

// The job of a recording. Refusals as of a job's file without draws; a draw record is 13; 2 where there is no room for what it comes to.
pub fn begin(file: &[u8], room: bool) -> Begun
    ensures { BegunIn file.now room result }
{
    let w = read_file(file);
    let counts = w.counts;
    let blocks = w.starts;
    let right = paper::both(w.ok, counts[6] == 0);
    let refusal = read_refusal(right, counts[1], counts[2], counts[3], counts[6], room);
    if refusal.number != 0 {
        return not_begun(refusal);
    }
    match prepare(file, counts, blocks) {
        Ok(p) => begun_of(p),
        Err(f) => not_begun(f),
    }
}
