// Replays stored answers of the Rust on slots: reads records from standard input, asks the library the same, refusals included, and tells
// how many answers it compared and how many differ. `oracle/store` writes the records (oracle/src/stored_slots.rs has their layout).
#![tactic(auto)]

ghost use Rattle.std.specs.Prelude.{◌≤◌};

use std::io;
use stored::{
    Tally, at_most, counted, figure, front_quads, front_shorts, front_words, half, plus, quad,
    quads, refusal, rows, same_quads, same_shorts, same_words, shorts, size, yes_no,
};

// A record: counts and what is asked; how long each lent column is; the columns; rows and flags before and after; the answers; the columns
// that come out.
const RECORD: usize = 658;

const PEOPLE_AT: usize = 0;

const BASE_AT: usize = 8;

const RANGES_AT: usize = 16;

const SLOTS_AT: usize = 24;

const PERSON_AT: usize = 32;

const SLOT_AT: usize = 40;

const INSTANT_AT: usize = 48;

// Where the lengths of columns stand, then the columns.
const LONG_AT: usize = 52;

const BASE_STARTS_AT: usize = 80;

const BASE_ENDS_AT: usize = 112;

const PERSONS_AT: usize = 144;

const OPENS_AT: usize = 160;

const SHUTS_AT: usize = 192;

const STARTS_AT: usize = 224;

const ENDS_AT: usize = 288;

const BEFORE_AT: usize = 352;

const ABLE_AT: usize = 384;

const MARKED_AT: usize = 416;

const FROZEN_AT: usize = 424;

const MERGED_DUE_AT: usize = 432;

const ATOMS_DUE_AT: usize = 434;

const ABLE_DUE_AT: usize = 436;

const FROZEN_DUE_AT: usize = 438;

const YES_NO_DUE_AT: usize = 440;

const DEMAND_DUE_AT: usize = 442;

const MINUTES_DUE_AT: usize = 446;

const WHOSE_DUE_AT: usize = 450;

const FROMS_DUE_AT: usize = 466;

const TOS_DUE_AT: usize = 498;

const ATOM_STARTS_DUE_AT: usize = 530;

const ATOM_ENDS_DUE_AT: usize = 594;

// What a lent output holds before a call.
const FILL: u32 = 3735928559;

// What a refusal's number is counted from, among counts and among minutes.
const REFUSED: usize = 65000;

const REFUSED_MINUTES: u64 = 4000000000;

// How long lent column k is.
fn long(b: &[u8], k: usize) -> usize {
    half(b, plus(LONG_AT, plus(k, k)))
}

// The same of a column that may be written, and no longer than there is room.
fn room(b: &[u8], k: usize, most: usize) -> usize
    ensures { result ≤ most }
{
    at_most(long(b, k), most)
}

// Eight u32, sixteen, and eight u16 at an index.
fn eight(b: &[u8], at: usize) -> [u32; 8] {
    let mut out = [0u32; 8];
    quads(b, at, &mut out);
    out
}

fn sixteen(b: &[u8], at: usize) -> [u32; 16] {
    let mut out = [0u32; 16];
    quads(b, at, &mut out);
    out
}

fn persons(b: &[u8], at: usize) -> [u16; 8] {
    let mut out = [0u16; 8];
    shorts(b, at, &mut out);
    out
}

// A column with room for all atomic slots, of which the first sixteen are stored.
fn atoms(b: &[u8], at: usize) -> [u32; 1024] {
    let mut out = [FILL; 1024];
    quads(b, at, &mut out[0..16]);
    out
}

// Four people's rows, and a word more.
fn four_rows(b: &[u8], at: usize) -> [u64; 65] {
    let mut out = [0u64; 65];
    rows(b, at, &mut out[0..64]);
    out
}

// One row, and a word more.
fn one_row(b: &[u8], at: usize) -> [u64; 17] {
    let mut out = [0u64; 17];
    rows(b, at, &mut out[0..16]);
    out
}

// What is lent of a column: its first n entries.
fn of_eight(a: &[u32; 8], n: usize) -> &[u32] {
    front_quads(a, n)
}

fn of_sixteen(a: &[u32; 16], n: usize) -> &[u32] {
    front_quads(a, n)
}

fn of_persons(a: &[u16; 8], n: usize) -> &[u16] {
    front_shorts(a, n)
}

// Whether a whole array is the one at an index: what was not lent, and what lies past a list, too.
fn is_eight(got: &[u32; 8], b: &[u8], at: usize) -> bool {
    same_quads(got, &eight(b, at))
}

fn is_persons(got: &[u16; 8], b: &[u8], at: usize) -> bool {
    same_shorts(got, &persons(b, at))
}

fn is_atoms(got: &[u32; 1024], b: &[u8], at: usize) -> bool {
    same_quads(got, &atoms(b, at))
}

fn is_four_rows(got: &[u64; 65], b: &[u8], at: usize) -> bool {
    same_words(got, &four_rows(b, at))
}

fn is_one_row(got: &[u64; 17], b: &[u8], at: usize) -> bool {
    same_words(got, &one_row(b, at))
}

// Ranges merged: their number, and the three columns.
fn merged_answers(tally: Tally, b: &[u8]) -> Tally {
    let who = persons(b, PERSONS_AT);
    let opens = eight(b, OPENS_AT);
    let shuts = eight(b, SHUTS_AT);
    let mut whose = [43981u16; 8];
    let mut froms = [FILL; 8];
    let mut tos = [FILL; 8];
    let of_whose = room(b, 9, 8);
    let of_froms = room(b, 10, 8);
    let of_tos = room(b, 11, 8);
    let got = slots::merged_ranges(
        size(b, PEOPLE_AT),
        size(b, RANGES_AT),
        of_persons(&who, long(b, 2)),
        of_eight(&opens, long(b, 3)),
        of_eight(&shuts, long(b, 4)),
        &mut whose[0..of_whose],
        &mut froms[0..of_froms],
        &mut tos[0..of_tos],
    );
    let t1 = tally.with(counted(got, REFUSED) == half(b, MERGED_DUE_AT));
    let t2 = t1.with(is_persons(&whose, b, WHOSE_DUE_AT));
    let t3 = t2.with(is_eight(&froms, b, FROMS_DUE_AT));
    t3.with(is_eight(&tos, b, TOS_DUE_AT))
}

// Base slots split: their number, and the two columns.
fn atom_answers(tally: Tally, b: &[u8]) -> Tally {
    let starts = eight(b, BASE_STARTS_AT);
    let ends = eight(b, BASE_ENDS_AT);
    let who = persons(b, PERSONS_AT);
    let opens = eight(b, OPENS_AT);
    let shuts = eight(b, SHUTS_AT);
    let mut froms = [FILL; 1024];
    let mut tos = [FILL; 1024];
    let of_froms = room(b, 12, 1024);
    let of_tos = room(b, 13, 1024);
    let got = slots::atomise(
        size(b, PEOPLE_AT),
        size(b, BASE_AT),
        size(b, RANGES_AT),
        of_eight(&starts, long(b, 0)),
        of_eight(&ends, long(b, 1)),
        of_persons(&who, long(b, 2)),
        of_eight(&opens, long(b, 3)),
        of_eight(&shuts, long(b, 4)),
        &mut froms[0..of_froms],
        &mut tos[0..of_tos],
    );
    let t1 = tally.with(counted(got, REFUSED) == half(b, ATOMS_DUE_AT));
    let t2 = t1.with(is_atoms(&froms, b, ATOM_STARTS_DUE_AT));
    t2.with(is_atoms(&tos, b, ATOM_ENDS_DUE_AT))
}

// Asks who is available for which slot, into lent rows.
fn availability(b: &[u8], words: &mut [u64]) -> u8 {
    let starts = sixteen(b, STARTS_AT);
    let ends = sixteen(b, ENDS_AT);
    let who = persons(b, PERSONS_AT);
    let opens = eight(b, OPENS_AT);
    let shuts = eight(b, SHUTS_AT);
    slots::availability(
        size(b, PEOPLE_AT),
        size(b, SLOTS_AT),
        size(b, RANGES_AT),
        of_sixteen(&starts, long(b, 5)),
        of_sixteen(&ends, long(b, 6)),
        of_persons(&who, long(b, 2)),
        of_eight(&opens, long(b, 3)),
        of_eight(&shuts, long(b, 4)),
        words,
    )
}

// Who is available for which slot: the number, and all rows.
fn availability_answers(tally: Tally, b: &[u8]) -> Tally {
    let mut words = four_rows(b, BEFORE_AT);
    let of_words = room(b, 7, 65);
    let got = availability(b, &mut words[0..of_words]);
    let due = half(b, ABLE_DUE_AT);
    let t1 = tally.with(refusal(got, REFUSED) == due);
    let rows_at = if due == 0 { ABLE_AT } else { BEFORE_AT };
    t1.with(is_four_rows(&words, b, rows_at))
}

// Freezing at an instant: how many slots end by then, and the marks.
fn freezing_answers(tally: Tally, b: &[u8]) -> Tally {
    let starts = sixteen(b, STARTS_AT);
    let ends = sixteen(b, ENDS_AT);
    let mut flags = one_row(b, MARKED_AT);
    let of_flags = room(b, 8, 17);
    let got = slots::freeze_before(
        size(b, SLOTS_AT),
        of_sixteen(&starts, long(b, 5)),
        of_sixteen(&ends, long(b, 6)),
        &mut flags[0..of_flags],
        quad(b, INSTANT_AT),
    );
    let t1 = tally.with(counted(got, REFUSED) == half(b, FROZEN_DUE_AT));
    t1.with(is_one_row(&flags, b, FROZEN_AT))
}

// Whether one person is available for one slot.
fn yes_no_answer(tally: Tally, b: &[u8]) -> Tally {
    let words = four_rows(b, ABLE_AT);
    let got = slots::is_available(
        size(b, PEOPLE_AT),
        size(b, SLOTS_AT),
        front_words(&words, long(b, 7)),
        size(b, PERSON_AT),
        size(b, SLOT_AT),
    );
    tally.with(yes_no(got, REFUSED) == half(b, YES_NO_DUE_AT))
}

// Demand, and one slot's minutes.
fn length_answers(tally: Tally, b: &[u8]) -> Tally {
    let starts = sixteen(b, STARTS_AT);
    let ends = sixteen(b, ENDS_AT);
    let count = size(b, SLOTS_AT);
    let all = slots::demand(
        count,
        of_sixteen(&starts, long(b, 5)),
        of_sixteen(&ends, long(b, 6)),
    );
    let one = slots::slot_minutes(
        count,
        of_sixteen(&starts, long(b, 5)),
        of_sixteen(&ends, long(b, 6)),
        size(b, SLOT_AT),
    );
    let t1 = tally.with(figure(all, REFUSED_MINUTES) == u64::from(quad(b, DEMAND_DUE_AT)));
    t1.with(figure(one, REFUSED_MINUTES) == u64::from(quad(b, MINUTES_DUE_AT)))
}

// All answers of a record.
fn record_answers(tally: Tally, b: &[u8]) -> Tally {
    let t1 = merged_answers(tally, b);
    let t2 = atom_answers(t1, b);
    let t3 = availability_answers(t2, b);
    let t4 = freezing_answers(t3, b);
    let t5 = yes_no_answer(t4, b);
    length_answers(t5, b)
}

fn main(rt: HostRuntime) -> io::Result<()> {
    let t = stored::compare_each(&mut rt.stdin(), &mut [0u8; RECORD], record_answers)?;
    stored::print(&rt, t, "")
}
