// A play over a lent list of `Draw` structs: begun as a play of columns is, then module `play`'s step on the numbers of each.
ghost use Rattle.owners.specs.Derived.{plan, derived};
ghost use Rattle.owners.specs.Entries.{Ended};
ghost use Rattle.rota.specs.Draws.{played_draws};

use crate::play::{begin, step_at};
use paper::Refusal;

// A draw: the number drawn, and the two numbers that choose; laid out as C does, so that an exported function can be lent a list of them.
#[repr(C)]
#[derive(Clone, Copy)]
pub struct Draw {
    pub draw: u16,
    pub first: u16,
    pub second: u16,
}

// Plays a list of draws; the refusals, answers and outcome of `play::play`.
pub fn play(
    people: usize,
    slots: usize,
    units: usize,
    count: usize,
    starts: &[u32],
    ends: &[u32],
    avail: &[u64],
    begins: &[u16],
    frozen: &[u64],
    draws: &[Draw],
    owners: &mut [u8],
    sets: &mut [u64],
    minutes: &mut [u64],
    totals: &mut [u64],
    answers: &mut [u8],
) -> Refusal
    ensures { Ended (played_draws (plan people slots starts.now ends.now) avail.now units
        begins.now frozen.now count draws.now owners.old (derived sets.old
        minutes.old totals.old) answers.old) result owners.new (derived sets.new
        minutes.new totals.new)
        answers.new }
{
    let b = begin(
        people,
        slots,
        units,
        count,
        starts,
        ends,
        avail,
        begins,
        frozen,
        owners,
        sets,
        minutes,
        totals,
        count <= draws.len(),
        answers,
    );
    let fits = b.fits;
    let flags = b.flags;
    let n = b.todo;
    for i in 0..n {
        let d = draws[i];
        step_at(
            people, slots, units, starts, ends, begins, &fits, &flags, owners, sets, minutes,
            totals, d.draw, d.first, d.second, i, answers,
        );
    }
    b.refusal
}
