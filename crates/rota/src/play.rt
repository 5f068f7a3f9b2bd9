// A play: the draws of a list in order. Who fits which unit, and which units are frozen, are worked out once a call.
ghost use Rattle.std.specs.Prelude.{◌≡◌, ◌≤◌, length};
ghost use Rattle.paper.specs.Rows.{refusal_of};
ghost use Rattle.rota.specs.Board.{BoardSound, Even};
ghost use Rattle.rota.specs.Ready.{ready};
ghost use Rattle.rota.specs.Lent.{FrozenRight, mark_of, mark_found};
ghost use Rattle.rota.specs.Ready.{UnitRoom};
ghost use Rattle.rota.specs.Moves.{draw};
ghost use Rattle.rota.specs.Plays.{draws_of};
ghost use Rattle.owners.specs.Derived.{plan, derived};
ghost use Rattle.owners.specs.Inside.{InStep, PlanSound};
ghost use Rattle.rota.specs.Stepped.{Stepped, StepAsks, SteppedAt, Ran, DrawRoom};
ghost use Rattle.rota.specs.Begins.{Begins};
ghost use Rattle.rota.specs.Entries.{play_row, played};
ghost use Rattle.owners.specs.Entries.{Ended};

use crate::Move;
use crate::assignment::hand_over;
use crate::checks::{columns_enough, play_room_ok};
use crate::moves::decide;
use paper::Refusal;

// A play that has begun: its refusal, how many draws are to be played, who fits which unit, and which units are frozen.
#[derive(Clone, Copy)]
pub(crate) struct Begun {
    pub(crate) refusal: Refusal,
    pub(crate) todo: usize,
    pub(crate) fits: [u32; 1024],
    pub(crate) flags: [u8; 1024],
}

// The mark of a unit, by the search for a frozen slot of it: 0 where it found none.
fn mark_found(f: Result<Option<usize>, u8>) -> u8
    ensures { result ≡ mark_found f }
{
    match f {
        Ok(Some(_)) => 1,
        Ok(None) => 0,
        Err(_) => 1,
    }
}

// 0 where no slot from a up to e is frozen, else 1.
fn mark_of(frozen: &[u64], a: usize, e: usize) -> u8
    requires { (e ≤ 1024) × (16 ≤ length frozen.now) }
    ensures { result ≡ mark_of frozen.now a e }
{
    mark_found(slotset::row::next_set(1, e, frozen, 0, a))
}

// For each unit 1 where it is frozen.
fn frozen_of(slots: usize, units: usize, begins: &[u16], frozen: &[u64]) -> [u8; 1024]
    requires slots_bound { (slots ≤ 1024) × (units ≤ 1024) × (16 ≤ length frozen.now) }
    requires unit_room { UnitRoom slots units begins.now }
    ensures { FrozenRight slots units begins.now frozen.now result }
{
    let mut flags = [0u8; 1024];
    for u in 0..units {
        let a = units::start_of(begins, u);
        let e = units::unit_end(slots, units, begins, u);
        flags[u] = mark_of(frozen, a, e);
    }
    flags
}

// One draw: judged, then done. The answer is 0, 1 or 2.
pub(crate) fn step(
    people: usize,
    slots: usize,
    units: usize,
    starts: &[u32],
    ends: &[u32],
    begins: &[u16],
    fits: &[u32],
    flags: &[u8],
    owners: &mut [u8],
    sets: &mut [u64],
    minutes: &mut [u64],
    totals: &mut [u64],
    kind: u16,
    first: u16,
    second: u16,
) -> u8
    requires plan_sound { PlanSound (plan people slots starts.now ends.now) }
    requires in_step { InStep (plan people slots starts.now ends.now) owners.old (derived sets.old minutes.old totals.old) }
    requires board_sound { BoardSound (ready people slots units begins.now fits.now flags.now) }
    requires even { Even (ready people slots units begins.now fits.now flags.now) owners.old }
    requires units_in_bounds { (units ≤ length begins.now) × (units ≤ length fits.now) × (units ≤ length flags.now) }
    ensures { Stepped (plan people slots starts.now ends.now) (ready people slots units begins.now fits.now flags.now) owners.old (derived sets.old minutes.old totals.old) (draw kind first second) result owners.new (derived sets.new minutes.new totals.new) }
{
    match decide(
        people, slots, units, begins, fits, flags, owners, kind, first, second,
    ) {
        Move::Stay(n) => n,
        Move::Give { from, upto, to } => {
            hand_over(
                people, slots, starts, ends, owners, sets, minutes, totals, from, upto, to,
            );
            0
        }
        Move::Trade {
            from,
            upto,
            to,
            from2,
            upto2,
            to2,
        } => {
            hand_over(
                people, slots, starts, ends, owners, sets, minutes, totals, from, upto, to,
            );
            hand_over(
                people, slots, starts, ends, owners, sets, minutes, totals, from2, upto2, to2,
            );
            0
        }
    }
}

// One draw, and its answer at i.
pub(crate) fn step_at(
    people: usize,
    slots: usize,
    units: usize,
    starts: &[u32],
    ends: &[u32],
    begins: &[u16],
    fits: &[u32],
    flags: &[u8],
    owners: &mut [u8],
    sets: &mut [u64],
    minutes: &mut [u64],
    totals: &mut [u64],
    kind: u16,
    first: u16,
    second: u16,
    i: usize,
    answers: &mut [u8],
)
    requires { StepAsks (plan people slots starts.now ends.now) (ready people slots units begins.now fits.now flags.now)
        owners.old (derived sets.old minutes.old totals.old) begins.now fits.now flags.now i answers.old }
    ensures { SteppedAt (plan people slots starts.now ends.now) (ready people slots units begins.now fits.now flags.now) owners.old (derived sets.old minutes.old totals.old) (draw kind first second) i answers.old owners.new (derived sets.new minutes.new totals.new) answers.new }
{
    answers[i] = step(
        people, slots, units, starts, ends, begins, fits, flags, owners, sets, minutes, totals,
        kind, first, second,
    );
}

// The draws in order, each with its answer.
fn run(
    people: usize,
    slots: usize,
    units: usize,
    count: usize,
    starts: &[u32],
    ends: &[u32],
    begins: &[u16],
    fits: &[u32],
    flags: &[u8],
    draws: &[u16],
    firsts: &[u16],
    seconds: &[u16],
    owners: &mut [u8],
    sets: &mut [u64],
    minutes: &mut [u64],
    totals: &mut [u64],
    answers: &mut [u8],
)
    requires plan_sound { PlanSound (plan people slots starts.now ends.now) }
    requires in_step { InStep (plan people slots starts.now ends.now) owners.old (derived sets.old minutes.old totals.old) }
    requires board_sound { BoardSound (ready people slots units begins.now fits.now flags.now) }
    requires even { Even (ready people slots units begins.now fits.now flags.now) owners.old }
    requires draw_room { DrawRoom count draws.now firsts.now seconds.now answers.old }
    requires units_in_bounds { (units ≤ length begins.now) × (units ≤ length fits.now) × (units ≤ length flags.now) }
    ensures { Ran (plan people slots starts.now ends.now) (ready people slots units begins.now fits.now flags.now) owners.old (derived sets.old minutes.old totals.old) answers.old (draws_of draws.now firsts.now seconds.now count) owners.new (derived sets.new minutes.new totals.new) answers.new }
{
    for i in 0..count {
        step_at(
            people, slots, units, starts, ends, begins, fits, flags, owners, sets, minutes, totals,
            draws[i], firsts[i], seconds[i], i, answers,
        );
    }
}

// What stands against a play: 1, 2, 9 or 10.
fn play_refusal(
    people: usize,
    slots: usize,
    units: usize,
    count: usize,
    starts: &[u32],
    ends: &[u32],
    avail: &[u64],
    begins: &[u16],
    frozen: &[u64],
    owners: &[u8],
    sets: &[u64],
    minutes: &[u64],
    totals: &[u64],
    answers: &[u8],
    enough: bool,
) -> Refusal
    ensures { result ≡ refusal_of (play_row (plan people slots starts.now ends.now) avail.now
        units begins.now frozen.now count enough owners.now (derived sets.now minutes.now totals.now)
        answers.now) }
{
    owners::recounted(
        count <= paper::DRAWS_MOST,
        play_room_ok(units, count, begins, frozen, answers, enough),
        people,
        slots,
        units,
        starts,
        ends,
        avail,
        begins,
        owners,
        sets,
        minutes,
        totals,
    )
}

// Begins a play: judged, and what it works out once. `enough` says whether as many draws are lent as are played.
pub(crate) fn begin(
    people: usize,
    slots: usize,
    units: usize,
    count: usize,
    starts: &[u32],
    ends: &[u32],
    avail: &[u64],
    begins: &[u16],
    frozen: &[u64],
    owners: &[u8],
    sets: &[u64],
    minutes: &[u64],
    totals: &[u64],
    enough: bool,
    answers: &[u8],
) -> Begun
    ensures { Begins (plan people slots starts.now ends.now) avail.now units begins.now frozen.now count enough owners.now (derived sets.now minutes.now
        totals.now) answers.now result }
{
    let refusal = play_refusal(
        people, slots, units, count, starts, ends, avail, begins, frozen, owners, sets, minutes,
        totals, answers, enough,
    );
    if refusal.number == 0 {
        let mut fits = [0u32; 1024];
        units::unit_domains(people, slots, units, avail, begins, &mut fits);
        let flags = frozen_of(slots, units, begins, frozen);
        return Begun {
            refusal,
            todo: count,
            fits,
            flags,
        };
    }
    Begun {
        refusal,
        todo: 0,
        fits: [0; 1024],
        flags: [0; 1024],
    }
}

// Plays a list of draws, given as three columns; one answer byte a draw: 0 acted, 1 no move, 2 choice outside. Refusals 1, 2, 9,
// 10 with part and place.
pub fn play(
    people: usize,
    slots: usize,
    units: usize,
    count: usize,
    starts: &[u32],
    ends: &[u32],
    avail: &[u64],
    begins: &[u16],
    frozen: &[u64],
    draws: &[u16],
    firsts: &[u16],
    seconds: &[u16],
    owners: &mut [u8],
    sets: &mut [u64],
    minutes: &mut [u64],
    totals: &mut [u64],
    answers: &mut [u8],
) -> Refusal
    ensures { Ended (played (plan people slots starts.now ends.now) avail.now units begins.now frozen.now count draws.now firsts.now seconds.now owners.old (derived sets.old minutes.old totals.old) answers.old) result owners.new (derived sets.new minutes.new totals.new) answers.new }
{
    let refusal = play_refusal(
        people,
        slots,
        units,
        count,
        starts,
        ends,
        avail,
        begins,
        frozen,
        owners,
        sets,
        minutes,
        totals,
        answers,
        columns_enough(count, draws, firsts, seconds),
    );
    if refusal.number == 0 {
        let mut fits = [0u32; 1024];
        units::unit_domains(people, slots, units, avail, begins, &mut fits);
        let flags = frozen_of(slots, units, begins, frozen);
        run(
            people, slots, units, count, starts, ends, begins, &fits, &flags, draws, firsts,
            seconds, owners, sets, minutes, totals, answers,
        );
        return refusal;
    }
    refusal
}
