// One lent set: its 16 words and its length.
ghost use Rattle.std.specs.Prelude.{◌≡◌};
ghost use Rattle.paper.specs.Limits.{number_of};
ghost use Rattle.slotset.specs.Slots.{has, size, has_no_member};
ghost use Rattle.slotset.specs.Search.{next_set, prev_set, next_unset_after, prev_unset_before};
ghost use Rattle.slotset.specs.Answers.{set_row, set_slots, set_run, set_next_member};
ghost use Rattle.paper.specs.Rows.{answer_as};
ghost use Rattle.boltraven_c.specs.Numbers.{found_number, yes_no_number, plain_number, run_number, run_first, run_last};
ghost use Rattle.boltraven_c.specs.Numbers.{member_number, member_at, member_cursor};

use crate::answers::{found_number, plain_number, yes_no_number};
use crate::{NOTHING, refused};
use slotset::{Cursor, NextMember, Run, one};

// Whether slot i is a member: 1 or 0.
#[unsafe(no_mangle)]
pub extern "C" fn boltraven_set_contains(len: usize, words: &[u64], i: usize) -> u64
    ensures { result ≡ yes_no_number (answer_as (number_of (set_row words.now len))
        (has (set_slots words.now) len i)) }
{
    yes_no_number(one::contains(len, words, i))
}

// Whether the set has no member: 1 or 0.
#[unsafe(no_mangle)]
pub extern "C" fn boltraven_set_is_empty(len: usize, words: &[u64]) -> u64
    ensures { result ≡ yes_no_number (answer_as (number_of (set_row words.now len))
        (has_no_member (set_slots words.now) len)) }
{
    yes_no_number(one::is_empty(len, words))
}

// How many members the set has.
#[unsafe(no_mangle)]
pub extern "C" fn boltraven_set_count(len: usize, words: &[u64]) -> u64
    ensures { result ≡ plain_number (answer_as (number_of (set_row words.now len))
        (size (set_slots words.now) len)) }
{
    plain_number(one::count(len, words))
}

// The first member at or after `from`.
#[unsafe(no_mangle)]
pub extern "C" fn boltraven_set_next_set(len: usize, words: &[u64], from: usize) -> u64
    ensures { result ≡ found_number (answer_as (number_of (set_row words.now len))
        (next_set (set_slots words.now) len from)) }
{
    found_number(one::next_set(len, words, from))
}

// The last member at or before `from`.
#[unsafe(no_mangle)]
pub extern "C" fn boltraven_set_prev_set(len: usize, words: &[u64], from: usize) -> u64
    ensures { result ≡ found_number (answer_as (number_of (set_row words.now len))
        (prev_set (set_slots words.now) len from)) }
{
    found_number(one::prev_set(len, words, from))
}

// The first slot after `from`, below the length, that is no member.
#[unsafe(no_mangle)]
pub extern "C" fn boltraven_set_next_unset_after(len: usize, words: &[u64], from: usize) -> u64
    ensures { result ≡ found_number (answer_as (number_of (set_row words.now len))
        (next_unset_after (set_slots words.now) len from)) }
{
    found_number(one::next_unset_after(len, words, from))
}

// The last slot before `from`, below the length, that is no member.
#[unsafe(no_mangle)]
pub extern "C" fn boltraven_set_prev_unset_before(len: usize, words: &[u64], from: usize) -> u64
    ensures { result ≡ found_number (answer_as (number_of (set_row words.now len))
        (prev_unset_before (set_slots words.now) len from)) }
{
    found_number(one::prev_unset_before(len, words, from))
}

// The stretch that holds slot i, with its ends written: 0, a run; 1, a hole. Otherwise they stay.
#[unsafe(no_mangle)]
pub extern "C" fn boltraven_set_run_bounds(
    len: usize,
    words: &[u64],
    i: usize,
    first: &mut u64,
    last: &mut u64,
) -> u64
    ensures value { result ≡ run_number (set_run words.now len i) }
    ensures first_after { first.new
        ≡ run_first first.old (set_run words.now len i) }
    ensures last_after { last.new
        ≡ run_last last.old (set_run words.now len i) }
{
    match one::run_bounds(len, words, i) {
        Ok(
            Run::Span {
                first: low,
                last: high,
            },
        ) => {
            *first = low as u64;
            *last = high as u64;
            0
        }
        Ok(
            Run::Hole {
                first: low,
                last: high,
            },
        ) => {
            *first = low as u64;
            *last = high as u64;
            1
        }
        Ok(Run::Outside) => NOTHING,
        Err(n) => refused(n),
    }
}

// The next member from the cursor on: 0, with its index and the next cursor written; otherwise they stay.
#[unsafe(no_mangle)]
pub extern "C" fn boltraven_set_next_member(
    len: usize,
    words: &[u64],
    cursor: usize,
    at: &mut u64,
    next: &mut u64,
) -> u64
    ensures value { result ≡ member_number (set_next_member words.now len cursor) }
    ensures at_after { at.new
        ≡ member_at at.old (set_next_member words.now len cursor) }
    ensures next_after { next.new
        ≡ member_cursor next.old (set_next_member words.now len cursor) }
{
    match one::next_member(len, words, Cursor { at: cursor }) {
        Ok(
            Some(
                NextMember {
                    at: slot,
                    next: after,
                },
            ),
        ) => {
            *at = slot as u64;
            *next = after.at as u64;
            0
        }
        Ok(None) => NOTHING,
        Err(n) => refused(n),
    }
}
