// Replays stored answers of the Rust on slot sets: reads records from standard input, asks the library the same, and tells how many answers
// it compared and how many differ. `oracle/store` writes the records (oracle/src/stored.rs has their layout).
#![tactic(auto)]

use slotset::{NextRun, Run, SlotSet, row};
use std::io;
use stored::{Tally, half, plus, same_words};

// A record: length, words, is_empty, count, eight indexes with their answers in 22 bytes each, and four changes.
const RECORD: usize = 834;

const WORDS_AT: usize = 2;

const INDEXES_AT: usize = 134;

const CHANGES_AT: usize = 310;

// Nothing found, and an answer that no record has.
const NOTHING: usize = 65535;

const REFUSED: usize = 65534;

// The sixteen words at an index.
fn words(b: &[u8], at: usize) -> [u64; 16] {
    let mut out = [0u64; 16];
    stored::words(b, at, &mut out);
    out
}

// Whether a set was changed, and has the words at an index.
fn is_after(changed: slotset::Changed, b: &[u8], at: usize) -> bool {
    let set = changed.set;
    let got = set.words;
    changed.number == 0 && same_words(&got, &words(b, at))
}

// An answer as it is stored: yes or no, a number, a slot or nothing.
fn yes_no(answer: Result<bool, u8>) -> usize {
    answer.map_or(REFUSED, usize::from)
}

fn counted(answer: Result<usize, u8>) -> usize {
    answer.unwrap_or(REFUSED)
}

fn found(answer: Result<Option<usize>, u8>) -> usize {
    answer.map_or(REFUSED, |slot| slot.unwrap_or(NOTHING))
}

// Whether a stretch is what an index has: 0, a run, or 1, a hole, with its two ends; or nothing.
fn is_run(answer: Result<Run, u8>, b: &[u8], at: usize) -> bool {
    let number = half(b, at);
    let first = half(b, plus(at, 2));
    let last = half(b, plus(at, 4));
    match answer {
        Ok(
            Run::Span {
                first: low,
                last: high,
            },
        ) => number == 0 && low == first && high == last,
        Ok(
            Run::Hole {
                first: low,
                last: high,
            },
        ) => number == 1 && low == first && high == last,
        Ok(Run::Outside) => number == NOTHING && first == NOTHING && last == NOTHING,
        Err(_) => false,
    }
}

// The same of the next run, whose cursor is one past it.
fn is_next_run(answer: Result<Option<NextRun>, u8>, b: &[u8], at: usize) -> bool {
    let first = half(b, at);
    let last = half(b, plus(at, 2));
    match answer {
        Ok(Some(run)) => run.first == first && run.last == last && run.next.at == plus(last, 1),
        Ok(None) => first == NOTHING && last == NOTHING,
        Err(_) => false,
    }
}

// The answers on one index: membership, the four searches, the run or the hole that holds it and the next run.
fn index_answers(tally: Tally, ws: &[u64; 16], len: usize, b: &[u8], at: usize) -> Tally {
    let i = half(b, at);
    let t1 = tally.with(yes_no(row::contains(1, len, ws, 0, i)) == half(b, plus(at, 2)));
    let t2 = t1.with(found(row::next_set(1, len, ws, 0, i)) == half(b, plus(at, 4)));
    let t3 = t2.with(found(row::prev_set(1, len, ws, 0, i)) == half(b, plus(at, 6)));
    let t4 = t3.with(found(row::next_unset_after(1, len, ws, 0, i)) == half(b, plus(at, 8)));
    let t5 = t4.with(found(row::prev_unset_before(1, len, ws, 0, i)) == half(b, plus(at, 10)));
    let t6 = t5.with(is_run(row::run_bounds(1, len, ws, 0, i), b, plus(at, 12)));
    t6.with(is_next_run(
        row::next_run(1, len, ws, 0, slotset::Cursor { at: i }),
        b,
        plus(at, 18),
    ))
}

// The four changes of the set by value: insert, remove, and a stretch of each. A set of no slots has none to change.
fn change_answers(tally: Tally, set: SlotSet, b: &[u8]) -> Tally {
    if set.len == 0 {
        return tally;
    }
    let at = CHANGES_AT;
    let t1 = tally.with(is_after(set.insert(half(b, at)), b, at + 2));
    let t2 = t1.with(is_after(set.remove(half(b, at + 130)), b, at + 132));
    let t3 = t2.with(is_after(
        set.insert_stretch(half(b, at + 260), half(b, at + 262)),
        b,
        at + 264,
    ));
    t3.with(is_after(
        set.remove_stretch(half(b, at + 392), half(b, at + 394)),
        b,
        at + 396,
    ))
}

// All answers of a record.
fn record_answers(tally: Tally, b: &[u8]) -> Tally {
    // an array, so that the compiler knows which bytes are there and reads a word at once
    let Some(b) = b.as_array::<RECORD>() else {
        return tally.with(false);
    };
    let len = half(b, 0);
    let ws = words(b, WORDS_AT);
    let mut t = tally.with(yes_no(row::is_empty(1, len, &ws, 0)) == half(b, 130));
    t = t.with(counted(row::count(1, len, &ws, 0)) == half(b, 132));
    for k in 0..8usize {
        t = index_answers(t, &ws, len, b, INDEXES_AT + 22 * k);
    }
    change_answers(t, SlotSet { words: ws, len }, b)
}

fn main(rt: HostRuntime) -> io::Result<()> {
    let t = stored::compare_each(&mut rt.stdin(), &mut [0u8; RECORD], record_answers)?;
    stored::print(&rt, t, "")
}
