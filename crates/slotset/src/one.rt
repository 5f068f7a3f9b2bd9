// One lent set: its 16 words and its length, without people and a person, so that a question asks two tests. Nothing is copied.
ghost use Rattle.std.specs.Prelude.{◌≡◌, ◌&&◌, leb, length};
ghost use Rattle.paper.specs.Limits.{slots_most, set_words, number_of};
ghost use Rattle.paper.specs.Rows.{refusal_of, answer_as};
ghost use Rattle.slotset.specs.Slots.{has, size, has_no_member};
ghost use Rattle.slotset.specs.Search.{next_set, prev_set, next_unset_after, prev_unset_before};
ghost use Rattle.slotset.specs.Answers.{set_row, set_slots, set_run, set_next_member};

use crate::{Cursor, NextMember, Run, scan};
use paper::Refusal;

// Whether nothing stands against a lent set.
fn set_ok(len: usize, words: &[u64]) -> bool
    ensures { result ≡ leb len slots_most && leb set_words (length words.now) }
{
    paper::both(len <= paper::SLOTS_MOST, paper::SET_WORDS <= words.len())
}

// What stands against a lent set: 1 or 2. Every question asks it, so a set that passes is let in before tests are asked one by one.
fn set_refusal(len: usize, words: &[u64]) -> Refusal
    ensures { result ≡ refusal_of (set_row words.now len) }
{
    if set_ok(len, words) {
        return paper::accepted();
    }
    let f = paper::check(paper::accepted(), len <= paper::SLOTS_MOST, 1);
    paper::check(f, paper::SET_WORDS <= words.len(), 2)
}

// Whether slot i is a member; at or past the length it is not.
pub fn contains(len: usize, words: &[u64], i: usize) -> Result<bool, u8>
    ensures { result ≡ answer_as (number_of (set_row words.now len)) (has (set_slots words.now) len i) }
{
    let number = set_refusal(len, words).number;
    if number == 0 {
        return Ok(scan::contains(words, 0, len, i));
    }
    Err(number)
}

// Whether the set has no member.
pub fn is_empty(len: usize, words: &[u64]) -> Result<bool, u8>
    ensures { result ≡ answer_as (number_of (set_row words.now len)) (has_no_member (set_slots words.now) len) }
{
    let number = set_refusal(len, words).number;
    if number == 0 {
        return Ok(scan::is_empty(words, 0, len));
    }
    Err(number)
}

// How many members the set has.
pub fn count(len: usize, words: &[u64]) -> Result<usize, u8>
    ensures { result ≡ answer_as (number_of (set_row words.now len)) (size (set_slots words.now) len) }
{
    let number = set_refusal(len, words).number;
    if number == 0 {
        return Ok(scan::count(words, 0, len));
    }
    Err(number)
}

// The first member at or after `from`.
pub fn next_set(len: usize, words: &[u64], from: usize) -> Result<Option<usize>, u8>
    ensures { result ≡ answer_as (number_of (set_row words.now len)) (next_set (set_slots words.now) len from) }
{
    let number = set_refusal(len, words).number;
    if number == 0 {
        return Ok(scan::next_with(words, 0, len, true, from));
    }
    Err(number)
}

// The last member at or before `from`.
pub fn prev_set(len: usize, words: &[u64], from: usize) -> Result<Option<usize>, u8>
    ensures { result ≡ answer_as (number_of (set_row words.now len)) (prev_set (set_slots words.now) len from) }
{
    let number = set_refusal(len, words).number;
    if number == 0 {
        return Ok(scan::prev_set(words, 0, len, from));
    }
    Err(number)
}

// The first slot after `from`, below the length, that is no member.
pub fn next_unset_after(len: usize, words: &[u64], from: usize) -> Result<Option<usize>, u8>
    ensures { result ≡ answer_as (number_of (set_row words.now len))
        (next_unset_after (set_slots words.now) len from) }
{
    let number = set_refusal(len, words).number;
    if number == 0 {
        return Ok(scan::next_unset_after(words, 0, len, from));
    }
    Err(number)
}

// The last slot before `from`, below the length, that is no member.
pub fn prev_unset_before(len: usize, words: &[u64], from: usize) -> Result<Option<usize>, u8>
    ensures { result ≡ answer_as (number_of (set_row words.now len))
        (prev_unset_before (set_slots words.now) len from) }
{
    let number = set_refusal(len, words).number;
    if number == 0 {
        return Ok(scan::last_below(words, 0, len, false, from));
    }
    Err(number)
}

// The run that holds slot i, or the hole.
pub fn run_bounds(len: usize, words: &[u64], i: usize) -> Result<Run, u8>
    ensures { result ≡ set_run words.now len i }
{
    let number = set_refusal(len, words).number;
    if number == 0 {
        if i < len {
            let want = scan::contains(words, 0, len, i);
            let first = scan::start_around(words, 0, want, i);
            return Ok(scan::held_by(want, first, scan::end_around(words, 0, len, want, i)));
        }
        return Ok(Run::Outside);
    }
    Err(number)
}

// The reader of single members: the next one from the cursor on.
pub fn next_member(len: usize, words: &[u64], c: Cursor) -> Result<Option<NextMember>, u8>
    ensures { result ≡ set_next_member words.now len c.at }
{
    let at = c.at;
    let number = set_refusal(len, words).number;
    if number == 0 {
        return Ok(scan::next_member(words, 0, len, at));
    }
    Err(number)
}
