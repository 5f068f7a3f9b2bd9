// Slot sets, as rows of words: 16 words of u64 a person.
ghost use Rattle.std.specs.Prelude.{◌≡◌, ◌+◌};
ghost use Rattle.paper.specs.Limits.{number_of};
ghost use Rattle.slotset.specs.Slots.{has, size, has_no_member, value_of};
ghost use Rattle.slotset.specs.Search.{next_set, prev_set, next_unset_after, prev_unset_before};
ghost use Rattle.slotset.specs.Answers.{person_row, person_stretch_row, row_slots, row_run, row_next_run};
ghost use Rattle.paper.specs.Rows.{answer_as};
ghost use Rattle.slotset.specs.Answers.{row_next_member, put_of, row_stretch_of};
ghost use Rattle.boltraven_c.specs.Numbers.{found_number, yes_no_number, plain_number, run_number, run_first, run_last, next_run_number};
ghost use Rattle.boltraven_c.specs.Numbers.{next_run_first, next_run_last, next_run_cursor, member_number, member_at, member_cursor};

use crate::answers::{found_number, plain_number, yes_no_number};
use crate::{NOTHING, refused};
use slotset::{Changed, Cursor, NextMember, NextRun, Run, SlotSet, row};

// Whether slot i is a member: 1 or 0.
#[unsafe(no_mangle)]
pub extern "C" fn boltraven_contains(
    people: usize,
    len: usize,
    words: &[u64],
    person: usize,
    i: usize,
) -> u64
    ensures { result ≡ yes_no_number (answer_as (number_of (person_row words.now people person len))
        (has (row_slots words.now person) len i)) }
{
    yes_no_number(row::contains(people, len, words, person, i))
}

// Whether the row has no member: 1 or 0.
#[unsafe(no_mangle)]
pub extern "C" fn boltraven_is_empty(people: usize, len: usize, words: &[u64], person: usize) -> u64
    ensures { result ≡ yes_no_number (answer_as (number_of (person_row words.now people person len))
        (has_no_member (row_slots words.now person) len)) }
{
    yes_no_number(row::is_empty(people, len, words, person))
}

// How many members the row has.
#[unsafe(no_mangle)]
pub extern "C" fn boltraven_count(people: usize, len: usize, words: &[u64], person: usize) -> u64
    ensures { result ≡ plain_number (answer_as (number_of (person_row words.now people person len))
        (size (row_slots words.now person) len)) }
{
    plain_number(row::count(people, len, words, person))
}

// The first member at or after `from`.
#[unsafe(no_mangle)]
pub extern "C" fn boltraven_next_set(
    people: usize,
    len: usize,
    words: &[u64],
    person: usize,
    from: usize,
) -> u64
    ensures { result ≡ found_number (answer_as (number_of (person_row words.now people person len))
        (next_set (row_slots words.now person) len from)) }
{
    found_number(row::next_set(people, len, words, person, from))
}

// The last member at or before `from`.
#[unsafe(no_mangle)]
pub extern "C" fn boltraven_prev_set(
    people: usize,
    len: usize,
    words: &[u64],
    person: usize,
    from: usize,
) -> u64
    ensures { result ≡ found_number (answer_as (number_of (person_row words.now people person len))
        (prev_set (row_slots words.now person) len from)) }
{
    found_number(row::prev_set(people, len, words, person, from))
}

// The first slot after `from`, below the length, that is no member.
#[unsafe(no_mangle)]
pub extern "C" fn boltraven_next_unset_after(
    people: usize,
    len: usize,
    words: &[u64],
    person: usize,
    from: usize,
) -> u64
    ensures { result ≡ found_number (answer_as (number_of (person_row words.now people person len))
        (next_unset_after (row_slots words.now person) len from)) }
{
    found_number(row::next_unset_after(people, len, words, person, from))
}

// The last slot before `from`, below the length, that is no member.
#[unsafe(no_mangle)]
pub extern "C" fn boltraven_prev_unset_before(
    people: usize,
    len: usize,
    words: &[u64],
    person: usize,
    from: usize,
) -> u64
    ensures { result ≡ found_number (answer_as (number_of (person_row words.now people person len))
        (prev_unset_before (row_slots words.now person) len from)) }
{
    found_number(row::prev_unset_before(people, len, words, person, from))
}

// The stretch that holds slot i, with its ends written: 0, a run; 1, a hole. Otherwise they stay.
#[unsafe(no_mangle)]
pub extern "C" fn boltraven_run_bounds(
    people: usize,
    len: usize,
    words: &[u64],
    person: usize,
    i: usize,
    first: &mut u64,
    last: &mut u64,
) -> u64
    ensures value { result ≡ run_number (row_run words.now people person len i) }
    ensures first_after { first.new
        ≡ run_first first.old (row_run words.now people person len i) }
    ensures last_after { last.new
        ≡ run_last last.old (row_run words.now people person len i) }
{
    match row::run_bounds(people, len, words, person, i) {
        Ok(
            Run::Span {
                first: low,
                last: high,
            },
        ) => {
            *first = low as u64;
            *last = high as u64;
            0
        }
        Ok(
            Run::Hole {
                first: low,
                last: high,
            },
        ) => {
            *first = low as u64;
            *last = high as u64;
            1
        }
        Ok(Run::Outside) => NOTHING,
        Err(n) => refused(n),
    }
}

// The next run from the cursor on: 0, with its ends and the next cursor written; otherwise they stay.
#[unsafe(no_mangle)]
pub extern "C" fn boltraven_next_run(
    people: usize,
    len: usize,
    words: &[u64],
    person: usize,
    cursor: usize,
    first: &mut u64,
    last: &mut u64,
    next: &mut u64,
) -> u64
    ensures value { result ≡ next_run_number (row_next_run words.now people person len cursor) }
    ensures first_after { first.new
        ≡ next_run_first first.old (row_next_run words.now people person len cursor) }
    ensures last_after { last.new
        ≡ next_run_last last.old (row_next_run words.now people person len cursor) }
    ensures next_after { next.new
        ≡ next_run_cursor next.old (row_next_run words.now people person len cursor) }
{
    match row::next_run(people, len, words, person, Cursor { at: cursor }) {
        Ok(
            Some(
                NextRun {
                    first: low,
                    last: high,
                    next: after,
                },
            ),
        ) => {
            *first = low as u64;
            *last = high as u64;
            *next = after.at as u64;
            0
        }
        Ok(None) => NOTHING,
        Err(n) => refused(n),
    }
}

// The next member from the cursor on: 0, with its index and the next cursor written; otherwise they stay.
#[unsafe(no_mangle)]
pub extern "C" fn boltraven_next_member(
    people: usize,
    len: usize,
    words: &[u64],
    person: usize,
    cursor: usize,
    at: &mut u64,
    next: &mut u64,
) -> u64
    ensures value { result ≡ member_number (row_next_member words.now people person len cursor) }
    ensures at_after { at.new
        ≡ member_at at.old (row_next_member words.now people person len cursor) }
    ensures next_after { next.new
        ≡ member_cursor next.old (row_next_member words.now people person len cursor) }
{
    match row::next_member(people, len, words, person, Cursor { at: cursor }) {
        Ok(
            Some(
                NextMember {
                    at: slot,
                    next: after,
                },
            ),
        ) => {
            *at = slot as u64;
            *next = after.at as u64;
            0
        }
        Ok(None) => NOTHING,
        Err(n) => refused(n),
    }
}

// The set with slot i as wanted.
fn changed_set(set: SlotSet, i: usize, want: bool) -> Changed
    ensures { result ≡ put_of (value_of want) set i }
{
    if want { set.insert(i) } else { set.remove(i) }
}

// The row with slot i as wanted, by way of a set by value.
fn put_by_value(
    people: usize,
    len: usize,
    words: &mut [u64],
    person: usize,
    i: usize,
    want: bool,
) -> u8
    ensures value { result ≡ number_of (person_stretch_row words.old people person len i (i + 1)) }
    ensures words_after { words.new ≡ row_stretch_of (value_of want) words.old people person len i (i + 1) }
{
    let loaded = row::load(people, len, words, person);
    let number = loaded.number;
    if number == 0 {
        let set = loaded.set;
        let changed = changed_set(set, i, want);
        let refusal = changed.number;
        if refusal == 0 {
            let new = changed.set;
            return row::store(people, new, words, person);
        }
        return refusal;
    }
    number
}

// The row with slot i.
#[unsafe(no_mangle)]
pub extern "C" fn boltraven_insert(
    people: usize,
    len: usize,
    words: &mut [u64],
    person: usize,
    i: usize,
) -> u8
    ensures value { result ≡ number_of (person_stretch_row words.old people person len i (i + 1)) }
    ensures words_after { words.new ≡ row_stretch_of 1 words.old people person len i (i + 1) }
{
    put_by_value(people, len, words, person, i, true)
}

// The row without slot i.
#[unsafe(no_mangle)]
pub extern "C" fn boltraven_remove(
    people: usize,
    len: usize,
    words: &mut [u64],
    person: usize,
    i: usize,
) -> u8
    ensures value { result ≡ number_of (person_stretch_row words.old people person len i (i + 1)) }
    ensures words_after { words.new ≡ row_stretch_of 0 words.old people person len i (i + 1) }
{
    put_by_value(people, len, words, person, i, false)
}

// Every slot of the row from `from` up to `to`, without `to`, becomes as wanted.
#[unsafe(no_mangle)]
pub extern "C" fn boltraven_put_stretch(
    people: usize,
    len: usize,
    words: &mut [u64],
    person: usize,
    from: usize,
    to: usize,
    want: bool,
) -> u8
    ensures value { result ≡ number_of (person_stretch_row words.old people person len from to) }
    ensures words_after { words.new ≡ row_stretch_of (value_of want) words.old people person len from to }
{
    row::put_stretch(people, len, words, person, from, to, want)
}
