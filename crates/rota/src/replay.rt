// A replay of one recorded block of draws: it stops by itself at the first draw whose answer isn't the recorded one.
ghost use Rattle.std.specs.Prelude.{◌≡◌, ◌≤◌, length};
ghost use Rattle.paper.specs.Count.{all};
ghost use Rattle.owners.specs.Derived.{plan, derived};
ghost use Rattle.owners.specs.Inside.{InStep, PlanSound};
ghost use Rattle.rota.specs.Board.{BoardSound, Even};
ghost use Rattle.rota.specs.Ready.{ready};
ghost use Rattle.rota.specs.Plays.{draws_of};
ghost use Rattle.rota.specs.Stepped.{DrawRoom};
ghost use Rattle.rota.specs.Replays.{answer_ok, replayed, Replays, RanOn};

use crate::checks::columns_enough;
use crate::play::{begin, step};
use paper::Refusal;

// What a block comes to: each draw is answered as recorded; or the first one that isn't, which is played.
#[derive(Clone, Copy)]
pub enum Replayed {
    Agrees,
    Differs(usize),
}

// Whether the first recorded answers, as many as are lent of count, are 0, 1 or 2.
fn answers_ok(count: usize, recorded: &[u16]) -> bool
    ensures { result ≡ all count (answer_ok recorded.now) }
{
    let n = count.min(recorded.len());
    for i in 0..n {
        if recorded[i] > 2 {
            return false;
        }
    }
    true
}

// The draws in order, up to and with the first whose answer isn't the recorded one: its place, or their number.
fn run_on(
    people: usize,
    slots: usize,
    units: usize,
    count: usize,
    starts: &[u32],
    ends: &[u32],
    begins: &[u16],
    fits: &[u32],
    flags: &[u8],
    draws: &[u16],
    firsts: &[u16],
    seconds: &[u16],
    recorded: &[u16],
    owners: &mut [u8],
    sets: &mut [u64],
    minutes: &mut [u64],
    totals: &mut [u64],
) -> usize
    requires plan_sound { PlanSound (plan people slots starts.now ends.now) }
    requires in_step { InStep (plan people slots starts.now ends.now) owners.old (derived sets.old minutes.old totals.old) }
    requires board_sound { BoardSound (ready people slots units begins.now fits.now flags.now) }
    requires even { Even (ready people slots units begins.now fits.now flags.now) owners.old }
    requires draw_room { DrawRoom count draws.now firsts.now seconds.now recorded.now }
    requires units_in_bounds { (units ≤ length begins.now) × (units ≤ length fits.now) × (units ≤ length flags.now) }
    ensures { RanOn (plan people slots starts.now ends.now) (ready people slots units begins.now fits.now flags.now) owners.old (derived sets.old minutes.old totals.old) (draws_of draws.now firsts.now seconds.now count) recorded.now result owners.new (derived sets.new minutes.new totals.new) }
{
    for i in 0..count {
        let due = recorded[i];
        let answer = step(
            people, slots, units, starts, ends, begins, fits, flags, owners, sets, minutes, totals,
            draws[i], firsts[i], seconds[i],
        );
        if answer as u16 != due {
            return i;
        }
    }
    count
}

// Replays a block of draws, given as three columns beside the recorded answers. It needs no list of answers: those of the draws that were
// played are the recorded ones, but the last where it differs. Refusals 13 for a recorded answer above 2, 1, 2, 9, 10 with part and place.
pub fn replay_block(
    people: usize,
    slots: usize,
    units: usize,
    count: usize,
    starts: &[u32],
    ends: &[u32],
    avail: &[u64],
    begins: &[u16],
    frozen: &[u64],
    draws: &[u16],
    firsts: &[u16],
    seconds: &[u16],
    recorded: &[u16],
    owners: &mut [u8],
    sets: &mut [u64],
    minutes: &mut [u64],
    totals: &mut [u64],
) -> Result<Replayed, Refusal>
    ensures { Replays (replayed (plan people slots starts.now ends.now) avail.now units begins.now frozen.now count draws.now firsts.now seconds.now recorded.now owners.old (derived sets.old minutes.old totals.old)) result owners.new (derived sets.new minutes.new totals.new) }
{
    if answers_ok(count, recorded) {
        let b = begin(
            people,
            slots,
            units,
            count,
            starts,
            ends,
            avail,
            begins,
            frozen,
            owners,
            sets,
            minutes,
            totals,
            paper::both(
                columns_enough(count, draws, firsts, seconds),
                count <= recorded.len(),
            ),
            &[0; 1024],
        );
        let refusal = b.refusal;
        if refusal.number == 0 {
            let fits = b.fits;
            let flags = b.flags;
            let place = run_on(
                people, slots, units, count, starts, ends, begins, &fits, &flags, draws, firsts,
                seconds, recorded, owners, sets, minutes, totals,
            );
            if place < count {
                return Ok(Replayed::Differs(place));
            }
            return Ok(Replayed::Agrees);
        }
        return Err(refusal);
    }
    Err(Refusal {
        number: 13,
        part: 0,
        place: 0,
        second: 0,
    })
}
