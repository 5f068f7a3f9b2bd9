// Replays stored answers of the Rust on units: reads records from standard input, asks the library the same, refusals included, and tells
// how many answers it compared and how many differ. Where the Rust counts fewer days than are covered, the figures that follow from the days
// are the generator's own. `oracle/store` writes the records (oracle/src/stored_units.rs has their layout).
#![tactic(auto)]

ghost use Rattle.std.specs.Prelude.{◌≤◌};

use std::io;
use stored::{
    Tally, at_most, compare_section, counted, figure, front_quads, front_shorts, front_words, half,
    plus, print, quads, raw, raws, refusal, rows, same_quads, same_raws, same_shorts, short,
    shorts, size, word, yes_no,
};
use units::{Settings, UnitSlots};

// A record: counts and what is asked; settings; how long each lent column is; the columns, rows and flags; the answers; the columns and
// lists that come out.
const RECORD: usize = 468;

const PEOPLE_AT: usize = 0;

const SLOTS_AT: usize = 8;

const UNITS_AT: usize = 16;

const PERSON_AT: usize = 24;

const SLOT_AT: usize = 32;

const UNIT_AT: usize = 40;

const SETTINGS_AT: usize = 48;

// Where the lengths of columns stand, then the columns.
const LONG_AT: usize = 56;

const STARTS_AT: usize = 72;

const ENDS_AT: usize = 136;

const FIRSTS_AT: usize = 200;

const ROWS_AT: usize = 232;

const FLAGS_AT: usize = 264;

const ROTATIONS_DUE_AT: usize = 272;

const UNIT_STARTS_DUE_AT: usize = 274;

const COUNT_DUE_AT: usize = 276;

const FROM_DUE_AT: usize = 278;

const TO_DUE_AT: usize = 280;

const UNIT_OF_SLOT_DUE_AT: usize = 282;

const FROZEN_DUE_AT: usize = 284;

const SLOT_DOMAIN_DUE_AT: usize = 286;

const UNIT_DOMAIN_DUE_AT: usize = 288;

const UNIT_DOMAINS_DUE_AT: usize = 290;

const DAYS_DUE_AT: usize = 292;

const PER_DAY_DUE_AT: usize = 300;

const TARGET_DUE_AT: usize = 308;

const ACHIEVABLE_DUE_AT: usize = 316;

const ROTATION_LIST_AT: usize = 324;

const UNIT_LIST_AT: usize = 356;

const SLOT_PEOPLE_AT: usize = 388;

const UNIT_PEOPLE_AT: usize = 396;

const UNIT_MASKS_AT: usize = 404;

// What a lent column of starts, a lent list of people and a lent column of masks hold before a call.
const FILL: u16 = 43981;

const FILL_PEOPLE: u8 = 171;

const FILL_MASKS: u32 = 3735928559;

// What a refusal's number is counted from, among counts, and among days and minutes.
const REFUSED: usize = 65000;

const REFUSED_FIGURE: u64 = 1000000000000000000;

// How long lent column k is.
fn long(b: &[u8], k: usize) -> usize {
    half(b, plus(LONG_AT, plus(k, k)))
}

// The same of a column that may be written, and no longer than there is room.
fn room(b: &[u8], k: usize, most: usize) -> usize
    ensures { result ≤ most }
{
    at_most(long(b, k), most)
}

// Sixteen u32, and sixteen u16, at an index.
fn sixteen(b: &[u8], at: usize) -> [u32; 16] {
    let mut out = [0u32; 16];
    quads(b, at, &mut out);
    out
}

fn begins(b: &[u8], at: usize) -> [u16; 16] {
    let mut out = [0u16; 16];
    shorts(b, at, &mut out);
    out
}

// A list of people, four people's rows, and the row of frozen flags.
fn list(b: &[u8], at: usize) -> [u8; 8] {
    let mut out = [0u8; 8];
    raws(b, at, &mut out);
    out
}

fn four_rows(b: &[u8]) -> [u64; 65] {
    let mut out = [0u64; 65];
    rows(b, ROWS_AT, &mut out[0..64]);
    out
}

fn one_row(b: &[u8]) -> [u64; 17] {
    let mut out = [0u64; 17];
    rows(b, FLAGS_AT, &mut out[0..16]);
    out
}

// The settings of a record.
fn settings(b: &[u8]) -> Settings {
    Settings {
        fairness: raw(b, SETTINGS_AT),
        lock: raw(b, SETTINGS_AT + 1),
        boundary: raw(b, SETTINGS_AT + 2),
        edition: raw(b, SETTINGS_AT + 3),
        value: short(b, SETTINGS_AT + 4),
        days: short(b, SETTINGS_AT + 6),
    }
}

// Whether a whole array is the one at an index: what was not lent, and what lies past a list, too.
fn is_firsts(got: &[u16; 16], b: &[u8], at: usize) -> bool {
    same_shorts(got, &begins(b, at))
}

fn is_list(got: &[u8; 8], b: &[u8], at: usize) -> bool {
    same_raws(got, &list(b, at))
}

fn is_masks(got: &[u32; 16], b: &[u8], at: usize) -> bool {
    same_quads(got, &sixteen(b, at))
}

// Whether a unit has the slots that are due, or is refused as it is due.
fn is_span(answer: Result<UnitSlots, u8>, b: &[u8]) -> bool {
    let first = half(b, FROM_DUE_AT);
    let past = half(b, TO_DUE_AT);
    match answer {
        Ok(span) => span.from == first && span.to == past,
        Err(n) => {
            let refused = plus(REFUSED, usize::from(n));
            refused == first && refused == past
        }
    }
}

// Where rotations begin: how many, and the column.
fn rotation_answers(tally: Tally, b: &[u8]) -> Tally {
    let starts = sixteen(b, STARTS_AT);
    let ends = sixteen(b, ENDS_AT);
    let mut out = [FILL; 16];
    let of_out = room(b, 5, 16);
    let got = units::rotation_starts(
        size(b, SLOTS_AT),
        settings(b),
        front_quads(&starts, long(b, 0)),
        front_quads(&ends, long(b, 1)),
        &mut out[0..of_out],
    );
    let t1 = tally.with(counted(got, REFUSED) == half(b, ROTATIONS_DUE_AT));
    t1.with(is_firsts(&out, b, ROTATION_LIST_AT))
}

// Where units begin: how many, and the column.
fn unit_start_answers(tally: Tally, b: &[u8]) -> Tally {
    let starts = sixteen(b, STARTS_AT);
    let ends = sixteen(b, ENDS_AT);
    let mut out = [FILL; 16];
    let of_out = room(b, 5, 16);
    let got = units::unit_starts(
        size(b, SLOTS_AT),
        settings(b),
        front_quads(&starts, long(b, 0)),
        front_quads(&ends, long(b, 1)),
        &mut out[0..of_out],
    );
    let t1 = tally.with(counted(got, REFUSED) == half(b, UNIT_STARTS_DUE_AT));
    t1.with(is_firsts(&out, b, UNIT_LIST_AT))
}

// How many units, the slots of one, and the unit of a slot.
fn unit_answers(tally: Tally, b: &[u8]) -> Tally {
    let begin = begins(b, FIRSTS_AT);
    let lent = front_shorts(&begin, long(b, 2));
    let slots = size(b, SLOTS_AT);
    let count = size(b, UNITS_AT);
    let unit = size(b, UNIT_AT);
    let t1 = tally.with(
        counted(units::unit_count(slots, count, lent), REFUSED) == half(b, COUNT_DUE_AT),
    );
    let t2 = t1.with(is_span(units::unit_slots(slots, count, lent, unit), b));
    let of_slot = units::unit_of_slot(slots, count, lent, size(b, SLOT_AT));
    t2.with(counted(of_slot, REFUSED) == half(b, UNIT_OF_SLOT_DUE_AT))
}

// Whether a unit is frozen.
fn frozen_answer(tally: Tally, b: &[u8]) -> Tally {
    let flags = one_row(b);
    let begin = begins(b, FIRSTS_AT);
    let got = units::unit_frozen(
        size(b, SLOTS_AT),
        size(b, UNITS_AT),
        front_shorts(&begin, long(b, 2)),
        front_words(&flags, long(b, 4)),
        size(b, UNIT_AT),
    );
    tally.with(yes_no(got, REFUSED) == half(b, FROZEN_DUE_AT))
}

// Who can cover a slot: how many, and the list.
fn slot_domain_answers(tally: Tally, b: &[u8]) -> Tally {
    let able = four_rows(b);
    let mut out = [FILL_PEOPLE; 8];
    let of_out = room(b, 6, 8);
    let got = units::slot_domain(
        size(b, PEOPLE_AT),
        size(b, SLOTS_AT),
        front_words(&able, long(b, 3)),
        &mut out[0..of_out],
        size(b, SLOT_AT),
    );
    let t1 = tally.with(counted(got, REFUSED) == half(b, SLOT_DOMAIN_DUE_AT));
    t1.with(is_list(&out, b, SLOT_PEOPLE_AT))
}

// Who can cover a unit: how many, and the list.
fn unit_domain_answers(tally: Tally, b: &[u8]) -> Tally {
    let able = four_rows(b);
    let begin = begins(b, FIRSTS_AT);
    let mut out = [FILL_PEOPLE; 8];
    let of_out = room(b, 6, 8);
    let got = units::unit_domain(
        size(b, PEOPLE_AT),
        size(b, SLOTS_AT),
        size(b, UNITS_AT),
        front_words(&able, long(b, 3)),
        front_shorts(&begin, long(b, 2)),
        &mut out[0..of_out],
        size(b, UNIT_AT),
    );
    let t1 = tally.with(counted(got, REFUSED) == half(b, UNIT_DOMAIN_DUE_AT));
    t1.with(is_list(&out, b, UNIT_PEOPLE_AT))
}

// Who can cover each unit: the number, and the column of masks.
fn unit_domains_answers(tally: Tally, b: &[u8]) -> Tally {
    let able = four_rows(b);
    let begin = begins(b, FIRSTS_AT);
    let mut out = [FILL_MASKS; 16];
    let of_out = room(b, 7, 16);
    let got = units::unit_domains(
        size(b, PEOPLE_AT),
        size(b, SLOTS_AT),
        size(b, UNITS_AT),
        front_words(&able, long(b, 3)),
        front_shorts(&begin, long(b, 2)),
        &mut out[0..of_out],
    );
    let t1 = tally.with(refusal(got, REFUSED) == half(b, UNIT_DOMAINS_DUE_AT));
    t1.with(is_masks(&out, b, UNIT_MASKS_AT))
}

// Covered days, minutes a day, and the target run.
fn day_answers(tally: Tally, b: &[u8]) -> Tally {
    let all_starts = sixteen(b, STARTS_AT);
    let all_ends = sixteen(b, ENDS_AT);
    let starts = front_quads(&all_starts, long(b, 0));
    let ends = front_quads(&all_ends, long(b, 1));
    let slots = size(b, SLOTS_AT);
    let days = units::covered_days(slots, starts, ends).map(|k| k as u64);
    let per_day = units::minutes_per_day(slots, starts, ends);
    let t1 = tally.with(figure(days, REFUSED_FIGURE) == word(b, DAYS_DUE_AT));
    let t2 = t1.with(figure(per_day, REFUSED_FIGURE) == word(b, PER_DAY_DUE_AT));
    let target = units::target_run(slots, settings(b), starts, ends);
    t2.with(figure(target, REFUSED_FIGURE) == word(b, TARGET_DUE_AT))
}

// A person's achievable run.
fn achievable_answer(tally: Tally, b: &[u8]) -> Tally {
    let able = four_rows(b);
    let starts = sixteen(b, STARTS_AT);
    let ends = sixteen(b, ENDS_AT);
    let got = units::achievable_run(
        size(b, PEOPLE_AT),
        size(b, SLOTS_AT),
        settings(b),
        front_quads(&starts, long(b, 0)),
        front_quads(&ends, long(b, 1)),
        front_words(&able, long(b, 3)),
        size(b, PERSON_AT),
    );
    tally.with(figure(got, REFUSED_FIGURE) == word(b, ACHIEVABLE_DUE_AT))
}

// All answers of a record.
fn record_answers(tally: Tally, b: &[u8]) -> Tally {
    let t1 = rotation_answers(tally, b);
    let t2 = unit_start_answers(t1, b);
    let t3 = unit_answers(t2, b);
    let t4 = frozen_answer(t3, b);
    let t5 = slot_domain_answers(t4, b);
    let t6 = unit_domain_answers(t5, b);
    let t7 = unit_domains_answers(t6, b);
    let t8 = day_answers(t7, b);
    achievable_answer(t8, b)
}

// Where the Rust counts the days that are covered, and where it counts fewer.
fn main(rt: HostRuntime) -> io::Result<()> {
    let mut from = rt.stdin();
    let mut b = [0u8; RECORD];
    print(&rt, compare_section(&mut from, &mut b, record_answers)?, "")?;
    print(
        &rt,
        compare_section(&mut from, &mut b, record_answers)?,
        " where the Rust counts fewer days",
    )
}
