// Replays stored retirings: reads records from standard input, retires, and tells how many answers it compared and how many differ.
// `oracle/store` writes the records (oracle/src/stored_retirings.rs has their layout).
#![tactic(auto)]

use paper::Refusal;
use retire::Retiring;
use std::io;
use stored::{
    Tally, at_most, front_quads, front_shorts, half, plus, quads, raw, raws, rows, same_quads,
    same_raws, same_shorts, same_words, short, shorts, word, words,
};
use units::Settings;

// A record: five counts, the settings, new base slots and ranges; all columns as they are lent; the answer; all columns as they are then; a
// published column, with the two counts that it moves by, and as it is then.
const RECORD: usize = 796;

const SETTINGS_AT: usize = 10;

const FROMS_AT: usize = 18;

const TOS_AT: usize = 34;

const PERSONS_AT: usize = 50;

const OPENS_AT: usize = 62;

const SHUTS_AT: usize = 86;

const LENT_STARTS_AT: usize = 110;

const LENT_ENDS_AT: usize = 174;

const LENT_BEGINS_AT: usize = 238;

const LENT_OWNERS_AT: usize = 270;

const LENT_AVAIL_AT: usize = 286;

const LENT_SETS_AT: usize = 318;

const LENT_FROZEN_AT: usize = 350;

const LENT_MINUTES_AT: usize = 358;

const LENT_TOTALS_AT: usize = 390;

const LENT_PRIORS_AT: usize = 406;

const LENT_RETIRED_AT: usize = 422;

const ANSWER_AT: usize = 430;

const DUE_AT: usize = 440;

const MOVED_AT: usize = 760;

const PUBLISHED_AT: usize = 764;

const THEN_AT: usize = 780;

// Where each column begins among all columns as they are then.
const ENDS: usize = 64;

const BEGINS: usize = 128;

const OWNERS: usize = 160;

const AVAIL: usize = 176;

const SETS: usize = 208;

const FROZEN: usize = 240;

const MINUTES: usize = 248;

const TOTALS: usize = 280;

const PRIORS: usize = 296;

const RETIRED: usize = 312;

// A column of 1,024 u32, u16 or u8; what comes after its sixteen entries in the record is garbage past the slots.
fn long_times(b: &[u8], at: usize) -> [u32; 1024] {
    let mut out = [0u32; 1024];
    quads(b, at, &mut out);
    out
}

fn long_begins(b: &[u8], at: usize) -> [u16; 1024] {
    let mut out = [0u16; 1024];
    shorts(b, at, &mut out);
    out
}

fn long_owners(b: &[u8], at: usize) -> [u8; 1024] {
    let mut out = [0u8; 1024];
    raws(b, at, &mut out);
    out
}

// Their first sixteen entries.
fn times(b: &[u8], at: usize) -> [u32; 16] {
    let mut out = [0u32; 16];
    quads(b, at, &mut out);
    out
}

fn begins(b: &[u8], at: usize) -> [u16; 16] {
    let mut out = [0u16; 16];
    shorts(b, at, &mut out);
    out
}

fn bytes(b: &[u8], at: usize) -> [u8; 16] {
    let mut out = [0u8; 16];
    raws(b, at, &mut out);
    out
}

fn front_raws(s: &[u8]) -> &[u8] {
    let k = at_most(16, s.len());
    &s[0..k]
}

// Four u32.
fn four(b: &[u8], at: usize) -> [u32; 4] {
    let mut out = [0u32; 4];
    quads(b, at, &mut out);
    out
}

// Six u32, and six u16.
fn six(b: &[u8], at: usize) -> [u32; 6] {
    let mut out = [0u32; 6];
    quads(b, at, &mut out);
    out
}

fn six_persons(b: &[u8]) -> [u16; 6] {
    let mut out = [0u16; 6];
    shorts(b, PERSONS_AT, &mut out);
    out
}

// Four people's sets of 16 words, and one.
fn sets(b: &[u8], at: usize) -> [u64; 64] {
    let mut out = [0u64; 64];
    rows(b, at, &mut out);
    out
}

fn flags(b: &[u8], at: usize) -> [u64; 16] {
    let mut out = [0u64; 16];
    rows(b, at, &mut out);
    out
}

// Four, two and one u64.
fn four_words(b: &[u8], at: usize) -> [u64; 4] {
    let mut out = [0u64; 4];
    words(b, at, &mut out);
    out
}

fn two_words(b: &[u8], at: usize) -> [u64; 2] {
    let mut out = [0u64; 2];
    words(b, at, &mut out);
    out
}

fn one_word(b: &[u8], at: usize) -> [u64; 1] {
    [word(b, at); 1]
}

// The six settings.
fn settings(b: &[u8]) -> Settings {
    Settings {
        fairness: raw(b, SETTINGS_AT),
        lock: raw(b, plus(SETTINGS_AT, 1)),
        boundary: raw(b, plus(SETTINGS_AT, 2)),
        edition: raw(b, plus(SETTINGS_AT, 3)),
        value: short(b, plus(SETTINGS_AT, 4)),
        days: short(b, plus(SETTINGS_AT, 6)),
    }
}

// Retires by a record, over columns that are lent.
fn asked(
    b: &[u8],
    starts: &mut [u32],
    ends: &mut [u32],
    avail: &mut [u64],
    units: &mut [u16],
    frozen: &mut [u64],
    owners: &mut [u8],
    own: &mut [u64],
    minutes: &mut [u64],
    totals: &mut [u64],
    priors: &mut [u32],
    retired: &mut [u64],
) -> Result<Retiring, Refusal> {
    let froms = four(b, FROMS_AT);
    let tos = four(b, TOS_AT);
    let persons = six_persons(b);
    let opens = six(b, OPENS_AT);
    let shuts = six(b, SHUTS_AT);
    retire::retire(
        half(b, 0),
        half(b, 2),
        half(b, 4),
        half(b, 6),
        half(b, 8),
        settings(b),
        &froms,
        &tos,
        &persons,
        &opens,
        &shuts,
        starts,
        ends,
        avail,
        units,
        frozen,
        owners,
        own,
        minutes,
        totals,
        priors,
        retired,
    )
}

// Whether the answer is of this kind, with these numbers beside it.
fn is_told(b: &[u8], kind: usize, first: usize, second: usize, third: usize, last: usize) -> bool {
    let named = kind == half(b, ANSWER_AT) && first == half(b, plus(ANSWER_AT, 2));
    let counted = second == half(b, plus(ANSWER_AT, 4)) && third == half(b, plus(ANSWER_AT, 6));
    named && counted && last == half(b, plus(ANSWER_AT, 8))
}

// Whether a refusal is the one that is due.
fn is_refusal(got: Refusal, b: &[u8]) -> bool {
    is_told(
        b,
        3,
        got.number as usize,
        got.part as usize,
        got.place,
        got.second,
    )
}

// Whether the answer is the one that is due.
fn is_answer(got: Result<Retiring, Refusal>, b: &[u8]) -> bool {
    match got {
        Ok(Retiring::Retired { gone, slots, units }) => is_told(b, 0, gone, slots, units, 0),
        Ok(Retiring::Nothing) => is_told(b, 1, 0, 0, 0, 0),
        Ok(Retiring::Everything) => is_told(b, 2, 0, 0, 0, 0),
        Err(refusal) => is_refusal(refusal, b),
    }
}

// Slots, unit starts and owners, by their first sixteen entries.
fn with_slots(
    t: Tally,
    b: &[u8],
    starts: &[u32],
    ends: &[u32],
    units: &[u16],
    owners: &[u8],
) -> Tally {
    let t = t.with(same_quads(front_quads(starts, 16), &times(b, DUE_AT)));
    let t = t.with(same_quads(front_quads(ends, 16), &times(b, plus(DUE_AT, ENDS))));
    let t = t.with(same_shorts(front_shorts(units, 16), &begins(b, plus(DUE_AT, BEGINS))));
    t.with(same_raws(front_raws(owners), &bytes(b, plus(DUE_AT, OWNERS))))
}

// Availability, sets and frozen flags.
fn with_sets(t: Tally, b: &[u8], avail: &[u64], own: &[u64], frozen: &[u64]) -> Tally {
    let t = t.with(same_words(avail, &sets(b, plus(DUE_AT, AVAIL))));
    let t = t.with(same_words(own, &sets(b, plus(DUE_AT, SETS))));
    t.with(same_words(frozen, &flags(b, plus(DUE_AT, FROZEN))))
}

// Minutes, totals, prior minutes and the retired total.
fn with_figures(
    t: Tally,
    b: &[u8],
    minutes: &[u64],
    totals: &[u64],
    priors: &[u32],
    retired: &[u64],
) -> Tally {
    let t = t.with(same_words(minutes, &four_words(b, plus(DUE_AT, MINUTES))));
    let t = t.with(same_words(totals, &two_words(b, plus(DUE_AT, TOTALS))));
    let t = t.with(same_quads(priors, &four(b, plus(DUE_AT, PRIORS))));
    t.with(same_words(retired, &one_word(b, plus(DUE_AT, RETIRED))))
}

// A published column beside it.
fn with_column(t: Tally, b: &[u8]) -> Tally {
    let mut published = bytes(b, PUBLISHED_AT);
    let number = retire::retire_column(
        half(b, 2),
        half(b, MOVED_AT),
        half(b, plus(MOVED_AT, 2)),
        &mut published,
    );
    t.with(number == 0 && same_raws(&published, &bytes(b, THEN_AT)))
}

// Compares a record: the answer, eleven columns, and the published one.
fn compared(tally: Tally, b: &[u8]) -> Tally {
    let mut starts = long_times(b, LENT_STARTS_AT);
    let mut ends = long_times(b, LENT_ENDS_AT);
    let mut units = long_begins(b, LENT_BEGINS_AT);
    let mut owners = long_owners(b, LENT_OWNERS_AT);
    let mut avail = sets(b, LENT_AVAIL_AT);
    let mut own = sets(b, LENT_SETS_AT);
    let mut frozen = flags(b, LENT_FROZEN_AT);
    let mut minutes = four_words(b, LENT_MINUTES_AT);
    let mut totals = two_words(b, LENT_TOTALS_AT);
    let mut priors = four(b, LENT_PRIORS_AT);
    let mut retired = one_word(b, LENT_RETIRED_AT);
    let answer = asked(
        b,
        &mut starts,
        &mut ends,
        &mut avail,
        &mut units,
        &mut frozen,
        &mut owners,
        &mut own,
        &mut minutes,
        &mut totals,
        &mut priors,
        &mut retired,
    );
    let t = tally.with(is_answer(answer, b));
    let t = with_slots(t, b, &starts, &ends, &units, &owners);
    let t = with_sets(t, b, &avail, &own, &frozen);
    let t = with_figures(t, b, &minutes, &totals, &priors, &retired);
    with_column(t, b)
}

fn main(rt: HostRuntime) -> io::Result<()> {
    let t = stored::compare_each(&mut rt.stdin(), &mut [0u8; RECORD], compared)?;
    stored::print(&rt, t, "")
}
