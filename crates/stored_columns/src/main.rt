// Replays stored answers on published and draft columns: reads records from standard input, asks the library the same, refusals included,
// and tells how many answers it compared and how many differ. The answers are the generator's own, slot by slot: the Rust has no such
// columns. `oracle/store` writes the records (oracle/src/columns.rs has their layout).
#![tactic(auto)]

ghost use Rattle.std.specs.Prelude.{◌≤◌};

use std::io;
use stored::{
    Tally, at_most, compare_section, front_words, half, plus, print, raw, raws, same_raws, words,
    yes_no,
};

// A record: the slots; how long the published column, the draft, the flags and the list are; the flags; both columns; the owner read of
// each slot; six slots with the number of the refusal, which column and how long; what publishing and the list screen answer and leave.
const RECORD: usize = 590;

const FLAGS_AT: usize = 10;

const PUBLISHED_AT: usize = 138;

const DRAFT_AT: usize = 218;

const READ_AT: usize = 298;

const ASKED_AT: usize = 378;

const PUBLISH_AT: usize = 426;

const SHOW_AT: usize = 508;

// The most entries of a column.
const MOST: usize = 80;

// What a list holds before a call.
const FILL: u8 = 171;

// What a refusal's number is counted from, among yes and no.
const REFUSED: usize = 100;

// A column, and the flags.
fn column(b: &[u8], at: usize) -> [u8; MOST] {
    let mut out = [0u8; MOST];
    raws(b, at, &mut out);
    out
}

fn flags(b: &[u8]) -> [u64; 16] {
    let mut out = [0u64; 16];
    words(b, FLAGS_AT, &mut out);
    out
}

// The entries of a column that are lent; and how many of one that may be written.
fn front(s: &[u8], n: usize) -> &[u8] {
    if n <= s.len() { &s[0..n] } else { s }
}

fn room(b: &[u8], at: usize) -> usize
    ensures { result ≤ 80 }
{
    at_most(half(b, at), MOST)
}

// Whether a whole column is the one at an index: what was not lent, too.
fn is_column(got: &[u8; MOST], b: &[u8], at: usize) -> bool {
    same_raws(got, &column(b, at))
}

// Whether a part has as many owners as are due, and each is the one read of its slot.
fn is_part(part: &[u8], b: &[u8], slot: usize, length: usize) -> bool {
    let read = plus(READ_AT, slot);
    part.len() == length
        && part
            .iter()
            .enumerate()
            .all(|(k, owner)| *owner == raw(b, plus(read, k)))
}

// The answers on one slot: the number, the column, the part.
fn slot_answers(tally: Tally, b: &[u8], at: usize) -> Tally {
    let published = column(b, PUBLISHED_AT);
    let draft = column(b, DRAFT_AT);
    let frozen = flags(b);
    let p = front(&published, half(b, 2));
    let d = front(&draft, half(b, 4));
    let f = front_words(&frozen, half(b, 6));
    let slots = half(b, 0);
    let slot = half(b, at);
    let refusal = columns::stretch_refusal(slots, p, d, f, slot);
    let t1 = tally.with(refusal.number as usize == half(b, plus(at, 2)));
    let which = columns::is_published(slots, p, d, f, slot);
    let t2 = t1.with(yes_no(which, REFUSED) == half(b, plus(at, 4)));
    let part = columns::stretch(slots, p, d, f, slot);
    t2.with(is_part(part, b, slot, half(b, plus(at, 6))))
}

// What publishing answers and leaves.
fn publish_answers(tally: Tally, b: &[u8]) -> Tally {
    let mut published = column(b, PUBLISHED_AT);
    let draft = column(b, DRAFT_AT);
    let frozen = flags(b);
    let p = room(b, 2);
    let number = columns::publish(
        half(b, 0),
        front(&draft, half(b, 4)),
        front_words(&frozen, half(b, 6)),
        &mut published[0..p],
    );
    let t1 = tally.with(number as usize == half(b, PUBLISH_AT));
    t1.with(is_column(&published, b, PUBLISH_AT + 2))
}

// What the list screen answers and leaves.
fn show_answers(tally: Tally, b: &[u8]) -> Tally {
    let published = column(b, PUBLISHED_AT);
    let draft = column(b, DRAFT_AT);
    let frozen = flags(b);
    let mut shown = [FILL; MOST];
    let s = room(b, 8);
    let number = columns::show(
        half(b, 0),
        front(&published, half(b, 2)),
        front(&draft, half(b, 4)),
        front_words(&frozen, half(b, 6)),
        &mut shown[0..s],
    );
    let t1 = tally.with(number as usize == half(b, SHOW_AT));
    t1.with(is_column(&shown, b, SHOW_AT + 2))
}

// All answers of a record.
fn record_answers(tally: Tally, b: &[u8]) -> Tally {
    let t1 = slot_answers(tally, b, ASKED_AT);
    let t2 = slot_answers(t1, b, ASKED_AT + 8);
    let t3 = slot_answers(t2, b, ASKED_AT + 16);
    let t4 = slot_answers(t3, b, ASKED_AT + 24);
    let t5 = slot_answers(t4, b, ASKED_AT + 32);
    let t6 = slot_answers(t5, b, ASKED_AT + 40);
    show_answers(publish_answers(t6, b), b)
}

fn main(rt: HostRuntime) -> io::Result<()> {
    let t = compare_section(&mut rt.stdin(), &mut [0u8; RECORD], record_answers)?;
    print(&rt, t, "")
}
