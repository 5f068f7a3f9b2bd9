// Replays stored rotas of the Rust: reads sections of records from standard input, plays and assigns the same, and tells for each section
// how many answers it compared and how many differ. `oracle/store` writes the records (oracle/src/stored_rotas.rs has their layout).
#![tactic(auto)]

ghost use Rattle.std.specs.Prelude.{◌≤◌};

use paper::Refusal;
use std::io;
use stored::{
    Tally, at_most, compare_section, front_shorts, half, plus, print, quad, quads, raw, raws,
    same_raws, same_words, shorts,
};

// A record: people, slots, units, draws; the slots; where units begin; who can cover which slot; frozen slots; the owners before; the
// draws; then the Rust's answers, owners, sets, minutes and totals; an assign, and the refusal that is due, and that of a recount without
// units; sets, minutes and totals before; how much is lent.
const RECORD: usize = 358;

const STARTS_AT: usize = 8;

const ENDS_AT: usize = 72;

const FIRSTS_AT: usize = 136;

const ABLE_AT: usize = 168;

const FROZEN_AT: usize = 176;

const OWNERS_AT: usize = 178;

const KINDS_AT: usize = 194;

const ONES_AT: usize = 210;

const TWOS_AT: usize = 226;

const ANSWERS_AT: usize = 242;

const OWNERS_DUE_AT: usize = 250;

const SETS_DUE_AT: usize = 266;

const MINUTES_DUE_AT: usize = 274;

const TOTALS_DUE_AT: usize = 290;

const SLOT_AT: usize = 298;

const OWNER_AT: usize = 300;

const REFUSAL_AT: usize = 302;

const SLOTS_REFUSAL_AT: usize = 310;

const SETS_AT: usize = 318;

const MINUTES_AT: usize = 326;

const TOTALS_AT: usize = 342;

const OWNERS_LONG_AT: usize = 350;

const SETS_LONG_AT: usize = 352;

const TOTALS_LONG_AT: usize = 354;

const FIRSTS_LONG_AT: usize = 356;

// The owner that is nobody.
const NOBODY: u8 = 255;

// A rota: its owners, sets, minutes and totals, the refusal of the last call on it, and the answers of a play.
#[derive(Clone, Copy)]
struct Rota {
    refusal: Refusal,
    owners: [u8; 16],
    sets: [u64; 64],
    minutes: [u64; 4],
    totals: [u64; 3],
    answers: [u8; 8],
}

// Sixteen u32 at an index.
fn times(b: &[u8], at: usize) -> [u32; 16] {
    let mut out = [0u32; 16];
    quads(b, at, &mut out);
    out
}

// Where units begin.
fn begins(b: &[u8]) -> [u16; 16] {
    let mut out = [0u16; 16];
    shorts(b, FIRSTS_AT, &mut out);
    out
}

// Eight u16 at an index.
fn column(b: &[u8], at: usize) -> [u16; 8] {
    let mut out = [0u16; 8];
    shorts(b, at, &mut out);
    out
}

// Sixteen owners, and eight answers, at an index.
fn owners(b: &[u8], at: usize) -> [u8; 16] {
    let mut out = [0u8; 16];
    raws(b, at, &mut out);
    out
}

fn answers(b: &[u8]) -> [u8; 8] {
    let mut out = [0u8; 8];
    raws(b, ANSWERS_AT, &mut out);
    out
}

// Four people's sets, a u16 each, as sets of 16 words.
fn sets(b: &[u8], at: usize) -> [u64; 64] {
    let mut out = [0u64; 64];
    out[0] = half(b, at) as u64;
    out[16] = half(b, plus(at, 2)) as u64;
    out[32] = half(b, plus(at, 4)) as u64;
    out[48] = half(b, plus(at, 6)) as u64;
    out
}

// A u32 as a u64.
fn wide(x: u32) -> u64 {
    x as u64
}

// Four people's minutes, a u32 each.
fn minutes(b: &[u8], at: usize) -> [u64; 4] {
    let mut out = [0u64; 4];
    out[0] = wide(quad(b, at));
    out[1] = wide(quad(b, plus(at, 4)));
    out[2] = wide(quad(b, plus(at, 8)));
    out[3] = wide(quad(b, plus(at, 12)));
    out
}

// What nobody owns, in minutes and in slots, a u32 each, and one more entry, which is to stay.
fn totals(b: &[u8], at: usize) -> [u64; 3] {
    let mut out = [77u64; 3];
    out[0] = wide(quad(b, at));
    out[1] = wide(quad(b, plus(at, 4)));
    out
}

// The same arrays, handed back: what a function hands back has its length known where it is lent on.
fn owners_again(a: [u8; 16]) -> [u8; 16] {
    a
}

fn sets_again(a: [u64; 64]) -> [u64; 64] {
    a
}

fn minutes_again(a: [u64; 4]) -> [u64; 4] {
    a
}

fn totals_again(a: [u64; 3]) -> [u64; 3] {
    a
}

// How much of a column may be written.
fn room(b: &[u8], at: usize, most: usize) -> usize
    ensures { result ≤ most }
{
    at_most(half(b, at), most)
}

// The lent part of the unit starts.
fn lent_firsts(a: &[u16; 16], n: usize) -> &[u16] {
    front_shorts(a, n)
}

// The rota whose sets, minutes and totals are made from the owners of the record.
fn begin(b: &[u8]) -> Rota {
    let starts = times(b, STARTS_AT);
    let ends = times(b, ENDS_AT);
    let able = sets(b, ABLE_AT);
    let who = owners(b, OWNERS_AT);
    let mut own = [0u64; 64];
    let mut worked = [0u64; 4];
    let mut open = [77u64; 3];
    owners::from_slots(
        half(b, 0),
        half(b, 2),
        &starts,
        &ends,
        &able,
        &who,
        &mut own,
        &mut worked,
        &mut open,
    );
    Rota {
        refusal: paper::accepted(),
        owners: who,
        sets: own,
        minutes: worked,
        totals: open,
        answers: [0u8; 8],
    }
}

// The rota as the record has it before a call: made from nothing, so it may be damaged.
fn as_lent(b: &[u8]) -> Rota {
    let who = owners(b, OWNERS_AT);
    let own = sets(b, SETS_AT);
    let worked = minutes(b, MINUTES_AT);
    let open = totals(b, TOTALS_AT);
    Rota {
        refusal: paper::accepted(),
        owners: who,
        sets: own,
        minutes: worked,
        totals: open,
        answers: [0u8; 8],
    }
}

// Plays the draws of a record on lent owners, sets, minutes and totals: the refusal.
fn play_on(
    b: &[u8],
    flags: u64,
    who: &mut [u8],
    own: &mut [u64],
    worked: &mut [u64],
    open: &mut [u64],
    said: &mut [u8],
) -> Refusal {
    let mut frozen = [0u64; 16];
    frozen[0] = flags;
    let starts = times(b, STARTS_AT);
    let ends = times(b, ENDS_AT);
    let able = sets(b, ABLE_AT);
    let from = begins(b);
    let draws = column(b, KINDS_AT);
    let firsts = column(b, ONES_AT);
    let seconds = column(b, TWOS_AT);
    rota::play::play(
        half(b, 0),
        half(b, 2),
        half(b, 4),
        half(b, 6),
        &starts,
        &ends,
        &able,
        lent_firsts(&from, half(b, FIRSTS_LONG_AT)),
        &frozen,
        &draws,
        &firsts,
        &seconds,
        who,
        own,
        worked,
        open,
        said,
    )
}

// The rota after the draws of a record, with some slots frozen.
fn play(b: &[u8], flags: u64, before: Rota) -> Rota {
    let held_by = before.owners;
    let held = before.sets;
    let done = before.minutes;
    let left = before.totals;
    let mut who = owners_again(held_by);
    let mut own = sets_again(held);
    let mut worked = minutes_again(done);
    let mut open = totals_again(left);
    let mut said = [0u8; 8];
    let of_who = room(b, OWNERS_LONG_AT, 16);
    let of_own = room(b, SETS_LONG_AT, 64);
    let of_open = room(b, TOTALS_LONG_AT, 3);
    let refusal = play_on(
        b,
        flags,
        &mut who[0..of_who],
        &mut own[0..of_own],
        &mut worked,
        &mut open[0..of_open],
        &mut said,
    );
    Rota {
        refusal,
        owners: who,
        sets: own,
        minutes: worked,
        totals: open,
        answers: said,
    }
}

// The rota after the record's assign.
fn assign(b: &[u8], before: Rota) -> Rota {
    let starts = times(b, STARTS_AT);
    let ends = times(b, ENDS_AT);
    let able = sets(b, ABLE_AT);
    let held_by = before.owners;
    let held = before.sets;
    let done = before.minutes;
    let left = before.totals;
    let mut who = owners_again(held_by);
    let mut own = sets_again(held);
    let mut worked = minutes_again(done);
    let mut open = totals_again(left);
    let refusal = rota::assignment::assign(
        half(b, 0),
        half(b, 2),
        &starts,
        &ends,
        &able,
        &mut who,
        &mut own,
        &mut worked,
        &mut open,
        half(b, SLOT_AT),
        raw(b, OWNER_AT),
    );
    Rota {
        refusal,
        owners: who,
        sets: own,
        minutes: worked,
        totals: open,
        answers: [0u8; 8],
    }
}

// Whether the owners of a rota are those at an index.
fn is_owners(got: &[u8; 16], b: &[u8], at: usize) -> bool {
    same_raws(got, &owners(b, at))
}

// Whether a call's refusal is the one that is due at an index: its number, part, place and second number.
fn is_refusal(got: Refusal, b: &[u8], at: usize) -> bool {
    let named = got.number as usize == half(b, at) && got.part as usize == half(b, plus(at, 2));
    named && got.place == half(b, plus(at, 4)) && got.second == half(b, plus(at, 6))
}

// Whether nothing was refused.
fn is_accepted(got: Refusal) -> bool {
    got.number == 0
}

// Whether the answers of a play are those that are due.
fn is_answers(got: &[u8; 8], b: &[u8]) -> bool {
    same_raws(got, &answers(b))
}

// Whether no answer was written.
fn is_untouched(got: &[u8; 8]) -> bool {
    let zeros = [0u8; 8];
    same_raws(got, &zeros)
}

// Whether sets, minutes, and totals, are those at an index.
fn is_sets(got: &[u64; 64], b: &[u8], at: usize) -> bool {
    same_words(got, &sets(b, at))
}

fn is_minutes(got: &[u64; 4], b: &[u8], at: usize) -> bool {
    same_words(got, &minutes(b, at))
}

fn is_totals(got: &[u64; 3], b: &[u8], at: usize) -> bool {
    same_words(got, &totals(b, at))
}

// The owners, sets, minutes and totals of a rota, each compared with what stands at an index.
fn rota_answers(
    tally: Tally,
    got: Rota,
    b: &[u8],
    owners_at: usize,
    sets_at: usize,
    minutes_at: usize,
    totals_at: usize,
) -> Tally {
    let who = got.owners;
    let own = got.sets;
    let worked = got.minutes;
    let open = got.totals;
    let t1 = tally.with(is_owners(&who, b, owners_at));
    let t2 = t1.with(is_sets(&own, b, sets_at));
    let t3 = t2.with(is_minutes(&worked, b, minutes_at));
    t3.with(is_totals(&open, b, totals_at))
}

// The same where what is due stands.
fn due_answers(tally: Tally, got: Rota, b: &[u8]) -> Tally {
    rota_answers(
        tally,
        got,
        b,
        OWNERS_DUE_AT,
        SETS_DUE_AT,
        MINUTES_DUE_AT,
        TOTALS_DUE_AT,
    )
}

// A rota after a play that is accepted: its answers, and the rota that is due.
fn played_answers(tally: Tally, end: Rota, b: &[u8]) -> Tally {
    let said = end.answers;
    let t1 = tally.with(is_accepted(end.refusal) && is_answers(&said, b));
    due_answers(t1, end, b)
}

// The frozen slots of a record.
fn flags(b: &[u8]) -> u64 {
    half(b, FROZEN_AT) as u64
}

// A play of all draws.
fn play_answers(tally: Tally, b: &[u8]) -> Tally {
    played_answers(tally, play(b, flags(b), begin(b)), b)
}

// The first answer of a play.
fn first_answer(end: Rota) -> u8 {
    let said = end.answers;
    said[0]
}

// Marked case 12 and its like: with a unit frozen the draw answers 1 and changes no owner; its unfrozen twin acts.
fn twin_acts(tally: Tally, b: &[u8]) -> Tally {
    let stays = play(b, flags(b), begin(b));
    let who = stays.owners;
    let t1 = tally.with(is_accepted(stays.refusal) && first_answer(stays) == 1);
    let t2 = t1.with(is_owners(&who, b, OWNERS_AT));
    let acts = play(b, 0, begin(b));
    let t3 = t2.with(first_answer(acts) == 0);
    played_answers(t3, acts, b)
}

// A single assign that makes a unit uneven is accepted; the next play is refused with 10.3 and the unit, which is the assigned slot's, and
// leaves the rota as the assign left it.
fn uneven_refused(tally: Tally, b: &[u8]) -> Tally {
    let uneven = assign(b, begin(b));
    let t1 = tally.with(is_accepted(uneven.refusal));
    let t2 = due_answers(t1, uneven, b);
    let next = play(b, flags(b), uneven);
    let who = next.owners;
    let t3 = t2.with(is_refusal(next.refusal, b, REFUSAL_AT));
    t3.with(is_owners(&who, b, OWNERS_DUE_AT))
}

// 1 where two numbers differ.
fn apart(x: u64, y: u64) -> usize {
    if x == y { 0 } else { 1 }
}

// How many people's minutes are no longer the same.
fn changed(before: [u64; 4], after: [u64; 4]) -> usize {
    let low = std::num::wrapping_add_usize(apart(before[0], after[0]), apart(before[1], after[1]));
    let high = std::num::wrapping_add_usize(apart(before[2], after[2]), apart(before[3], after[3]));
    std::num::wrapping_add_usize(low, high)
}

// A swap of two units of unequal lengths changes the minutes of both owners, and no other.
fn unequal_swap(tally: Tally, b: &[u8]) -> Tally {
    let begun = begin(b);
    let before = begun.minutes;
    let end = play(b, flags(b), begun);
    let after = end.minutes;
    let t1 = tally.with(changed(before, after) == 2);
    played_answers(t1, end, b)
}

// Whether somebody owns each slot from a up to e.
fn all_owned(who: [u8; 16], a: usize, e: usize) -> bool {
    let mut owned = true;
    for j in 0..16usize {
        if a <= j && j < e && who[j] == NOBODY {
            owned = false;
        }
    }
    owned
}

// A reassign that acts clears no unit: somebody owns each of its slots afterwards.
fn reassign_covers(tally: Tally, b: &[u8]) -> Tally {
    let end = play(b, flags(b), begin(b));
    let who = end.owners;
    let from = begins(b);
    let unit = half(b, ONES_AT);
    let first = units::start_of(&from, unit);
    let past = units::unit_end(half(b, 2), half(b, 4), &from, unit);
    let t1 = tally.with(first < past && all_owned(who, first, past));
    played_answers(t1, end, b)
}

// A single assign: its refusal, and the rota after it.
fn assign_answers(tally: Tally, b: &[u8]) -> Tally {
    let end = assign(b, begin(b));
    let t1 = tally.with(is_refusal(end.refusal, b, REFUSAL_AT));
    due_answers(t1, end, b)
}

// A play of a damaged rota: its refusal, and everything lent as it was.
fn damaged_refused(tally: Tally, b: &[u8]) -> Tally {
    let end = play(b, flags(b), as_lent(b));
    let said = end.answers;
    let t1 = tally.with(is_refusal(end.refusal, b, REFUSAL_AT));
    let t2 = t1.with(is_untouched(&said));
    rota_answers(t2, end, b, OWNERS_AT, SETS_AT, MINUTES_AT, TOTALS_AT)
}

// The recount of lent owners, sets, minutes and totals.
fn recount_on(b: &[u8], who: &[u8], own: &[u64], worked: &[u64], open: &[u64]) -> Refusal {
    let starts = times(b, STARTS_AT);
    let ends = times(b, ENDS_AT);
    let able = sets(b, ABLE_AT);
    let from = begins(b);
    owners::recount(
        half(b, 0),
        half(b, 2),
        half(b, 4),
        &starts,
        &ends,
        &able,
        &from,
        who,
        own,
        worked,
        open,
    )
}

// The recount of a rota, with units and without.
fn recount(b: &[u8], lent: Rota) -> Refusal {
    let who = lent.owners;
    let own = lent.sets;
    let worked = lent.minutes;
    let open = lent.totals;
    recount_on(b, &who, &own, &worked, &open)
}

fn recount_slots(b: &[u8], lent: Rota) -> Refusal {
    let starts = times(b, STARTS_AT);
    let ends = times(b, ENDS_AT);
    let able = sets(b, ABLE_AT);
    let who = lent.owners;
    let own = lent.sets;
    let worked = lent.minutes;
    let open = lent.totals;
    owners::recount_slots(
        half(b, 0),
        half(b, 2),
        &starts,
        &ends,
        &able,
        &who,
        &own,
        &worked,
        &open,
    )
}

// A rota that fails the recount: where, with units and without, and by a play.
fn recount_fails(tally: Tally, b: &[u8]) -> Tally {
    let t1 = tally.with(is_refusal(recount(b, as_lent(b)), b, REFUSAL_AT));
    let t2 = t1.with(is_refusal(recount_slots(b, as_lent(b)), b, SLOTS_REFUSAL_AT));
    let end = play(b, flags(b), as_lent(b));
    t2.with(is_refusal(end.refusal, b, REFUSAL_AT))
}

fn main(rt: HostRuntime) -> io::Result<()> {
    let mut from = rt.stdin();
    let mut b = [0u8; RECORD];
    print(&rt, compare_section(&mut from, &mut b, play_answers)?, "")?;
    print(
        &rt,
        compare_section(&mut from, &mut b, twin_acts)?,
        " of unfrozen twins",
    )?;
    print(
        &rt,
        compare_section(&mut from, &mut b, uneven_refused)?,
        " of rotas made uneven",
    )?;
    print(
        &rt,
        compare_section(&mut from, &mut b, unequal_swap)?,
        " of swaps of unequal units",
    )?;
    print(
        &rt,
        compare_section(&mut from, &mut b, reassign_covers)?,
        " of reassigns",
    )?;
    print(
        &rt,
        compare_section(&mut from, &mut b, assign_answers)?,
        " of single assigns",
    )?;
    print(
        &rt,
        compare_section(&mut from, &mut b, damaged_refused)?,
        " of damaged rotas",
    )?;
    print(
        &rt,
        compare_section(&mut from, &mut b, recount_fails)?,
        " of failed recounts",
    )
}
