// A person's row: the 16 words of one set among lent ones, a set a person, in person order. Nothing is copied to answer a question.
ghost use Rattle.std.specs.Prelude.{◌≡◌, ◌&&◌, ◌+◌, ◌*◌, ◌≤◌, leb, ltb, length, take, drop};
ghost use Rattle.paper.specs.Limits.{slots_most, set_words, people_ok, number_of};
ghost use Rattle.paper.specs.Rows.{refusal_of, answer_as};
ghost use Rattle.slotset.specs.Slots.{has, size, has_no_member, value_of};
ghost use Rattle.slotset.specs.Search.{next_set, prev_set, next_unset_after, prev_unset_before};
ghost use Rattle.slotset.specs.Answers.{person_row, person_stretch_row, row_slots, load_of, store_of, row_stretch_of, cleared_row};
ghost use Rattle.slotset.specs.Answers.{sets_row, same_sets_row, same_sets};
ghost use Rattle.slotset.specs.Answers.{row_run, row_next_run, row_next_member};

use crate::{Changed, Cursor, NextMember, NextRun, Run, SlotSet, scan};
use paper::Refusal;

// What stands against everybody's sets among lent words: 1 or 2.
pub fn sets_refusal(people: usize, len: usize, words: &[u64]) -> Refusal
    ensures { result ≡ refusal_of (sets_row words.now people len) }
{
    let f = paper::check_people(paper::accepted(), people);
    let f = paper::check(f, len <= paper::SLOTS_MOST, 1);
    paper::check_words(f, people, words)
}

// Whether nothing stands against a person's row.
fn row_ok(people: usize, len: usize, words: &[u64], person: usize) -> bool
    ensures { result ≡ people_ok people && (leb (set_words * people) (length words.now)
        && (leb len slots_most && ltb person people)) }
{
    let counted = paper::people_ok(people);
    let roomy = paper::words_ok(people, words);
    paper::both(
        counted,
        paper::both(
            roomy,
            paper::both(len <= paper::SLOTS_MOST, person < people),
        ),
    )
}

// What stands against a person's row: 1, 2 or 11. Every question asks it, so a row that passes is let in before tests are asked one by one.
fn row_refusal(people: usize, len: usize, words: &[u64], person: usize) -> Refusal
    ensures { result ≡ refusal_of (person_row words.now people person len) }
{
    if row_ok(people, len, words, person) {
        return paper::accepted();
    }
    paper::check(sets_refusal(people, len, words), person < people, 11)
}

// What stands against a stretch of a row: 1, 2 or 11.
fn row_stretch_refusal(
    people: usize,
    len: usize,
    words: &[u64],
    person: usize,
    from: usize,
    to: usize,
) -> Refusal
    ensures { result ≡ refusal_of (person_stretch_row words.now people person len from to) }
{
    crate::check_stretch(row_refusal(people, len, words, person), len, from, to)
}

// Whether slot i is a member; at or past the length it is not.
pub fn contains(
    people: usize,
    len: usize,
    words: &[u64],
    person: usize,
    i: usize,
) -> Result<bool, u8>
    ensures { result ≡ answer_as (number_of (person_row words.now people person len))
        (has (row_slots words.now person) len i) }
{
    let number = row_refusal(people, len, words, person).number;
    if number == 0 {
        return Ok(scan::contains(words, paper::SET_WORDS * person, len, i));
    }
    Err(number)
}

// Whether the row has no member.
pub fn is_empty(people: usize, len: usize, words: &[u64], person: usize) -> Result<bool, u8>
    ensures { result ≡ answer_as (number_of (person_row words.now people person len))
        (has_no_member (row_slots words.now person) len) }
{
    let number = row_refusal(people, len, words, person).number;
    if number == 0 {
        return Ok(scan::is_empty(words, paper::SET_WORDS * person, len));
    }
    Err(number)
}

// How many members the row has.
pub fn count(people: usize, len: usize, words: &[u64], person: usize) -> Result<usize, u8>
    ensures { result ≡ answer_as (number_of (person_row words.now people person len))
        (size (row_slots words.now person) len) }
{
    let number = row_refusal(people, len, words, person).number;
    if number == 0 {
        return Ok(scan::count(words, paper::SET_WORDS * person, len));
    }
    Err(number)
}

// The first member at or after `from`.
pub fn next_set(
    people: usize,
    len: usize,
    words: &[u64],
    person: usize,
    from: usize,
) -> Result<Option<usize>, u8>
    ensures { result ≡ answer_as (number_of (person_row words.now people person len))
        (next_set (row_slots words.now person) len from) }
{
    let number = row_refusal(people, len, words, person).number;
    if number == 0 {
        return Ok(scan::next_with(words, paper::SET_WORDS * person, len, true, from));
    }
    Err(number)
}

// The last member at or before `from`.
pub fn prev_set(
    people: usize,
    len: usize,
    words: &[u64],
    person: usize,
    from: usize,
) -> Result<Option<usize>, u8>
    ensures { result ≡ answer_as (number_of (person_row words.now people person len))
        (prev_set (row_slots words.now person) len from) }
{
    let number = row_refusal(people, len, words, person).number;
    if number == 0 {
        return Ok(scan::prev_set(words, paper::SET_WORDS * person, len, from));
    }
    Err(number)
}

// The first slot after `from`, below the length, that is no member.
pub fn next_unset_after(
    people: usize,
    len: usize,
    words: &[u64],
    person: usize,
    from: usize,
) -> Result<Option<usize>, u8>
    ensures { result ≡ answer_as (number_of (person_row words.now people person len))
        (next_unset_after (row_slots words.now person) len from) }
{
    let number = row_refusal(people, len, words, person).number;
    if number == 0 {
        return Ok(scan::next_unset_after(words, paper::SET_WORDS * person, len, from));
    }
    Err(number)
}

// The last slot before `from`, below the length, that is no member.
pub fn prev_unset_before(
    people: usize,
    len: usize,
    words: &[u64],
    person: usize,
    from: usize,
) -> Result<Option<usize>, u8>
    ensures { result ≡ answer_as (number_of (person_row words.now people person len))
        (prev_unset_before (row_slots words.now person) len from) }
{
    let number = row_refusal(people, len, words, person).number;
    if number == 0 {
        return Ok(scan::last_below(words, paper::SET_WORDS * person, len, false, from));
    }
    Err(number)
}

// The run that holds slot i, or the hole.
pub fn run_bounds(
    people: usize,
    len: usize,
    words: &[u64],
    person: usize,
    i: usize,
) -> Result<Run, u8>
    ensures { result ≡ row_run words.now people person len i }
{
    let number = row_refusal(people, len, words, person).number;
    if number == 0 {
        return Ok(scan::run_bounds(words, paper::SET_WORDS * person, len, i));
    }
    Err(number)
}

// The reader of runs: the next one from the cursor on.
pub fn next_run(
    people: usize,
    len: usize,
    words: &[u64],
    person: usize,
    c: Cursor,
) -> Result<Option<NextRun>, u8>
    ensures { result ≡ row_next_run words.now people person len c.at }
{
    let at = c.at;
    let number = row_refusal(people, len, words, person).number;
    if number == 0 {
        return Ok(scan::next_run(words, paper::SET_WORDS * person, len, at));
    }
    Err(number)
}

// The reader of single members: the next one from the cursor on.
pub fn next_member(
    people: usize,
    len: usize,
    words: &[u64],
    person: usize,
    c: Cursor,
) -> Result<Option<NextMember>, u8>
    ensures { result ≡ row_next_member words.now people person len c.at }
{
    let at = c.at;
    let number = row_refusal(people, len, words, person).number;
    if number == 0 {
        return Ok(scan::next_member(words, paper::SET_WORDS * person, len, at));
    }
    Err(number)
}

// Every slot of the row from `from` up to `to`, without `to`, becomes as wanted.
pub fn put_stretch(
    people: usize,
    len: usize,
    words: &mut [u64],
    person: usize,
    from: usize,
    to: usize,
    want: bool,
) -> u8
    ensures { (result ≡ number_of (person_stretch_row words.old people person len from to))
        × (words.new ≡ row_stretch_of (value_of want) words.old people person len from to) }
{
    let number = row_stretch_refusal(people, len, words, person, from, to).number;
    if number == 0 {
        scan::put_slots(words, paper::SET_WORDS * person, want, from, to);
        return 0;
    }
    number
}

// No slot of the row is a member any more; the bits past its length stay.
pub fn clear(people: usize, len: usize, words: &mut [u64], person: usize) -> u8
    ensures { (result ≡ number_of (person_row words.old people person len))
        × (words.new ≡ cleared_row words.old people person len) }
{
    let number = row_refusal(people, len, words, person).number;
    if number == 0 {
        scan::clear(words, paper::SET_WORDS * person, len);
        return 0;
    }
    number
}

// The sixteen words from word `base` on.
fn words_at(words: &[u64], base: usize) -> [u64; 16]
    requires { base + 16 ≤ length words.now }
    ensures { result ≡ take 16 (drop base words.now) }
{
    let mut out = [0u64; 16];
    out.copy_from_slice(&words[base..base + paper::SET_WORDS]);
    out
}

// The row as a set by value; refused, the empty set of no slots.
pub fn load(people: usize, len: usize, words: &[u64], person: usize) -> Changed
    ensures { result ≡ load_of words.now people person len }
{
    let number = row_refusal(people, len, words, person).number;
    if number == 0 {
        let read = words_at(words, paper::SET_WORDS * person);
        return Changed {
            set: SlotSet { words: read, len },
            number,
        };
    }
    let none = [0u64; 16];
    Changed {
        set: SlotSet {
            words: none,
            len: 0,
        },
        number,
    }
}

// The slots of a set below its length go into the row; the bits past them stay.
pub fn store(people: usize, set: SlotSet, words: &mut [u64], person: usize) -> u8
    ensures { (result ≡ number_of (person_row words.old people person set.len))
        × (words.new ≡ store_of set words.old people person) }
{
    let len = set.len;
    let number = row_refusal(people, len, words, person).number;
    if number == 0 {
        let read = set.words;
        scan::copy_slots(&read, len, words, paper::SET_WORDS * person);
        return 0;
    }
    number
}

// What stands against comparing everybody's sets in two columns of words: 1 or 2.
fn same_sets_refusal(people: usize, len: usize, a: &[u64], b: &[u64]) -> Refusal
    ensures { result ≡ refusal_of (same_sets_row a.now b.now people len) }
{
    paper::check_words(sets_refusal(people, len, a), people, b)
}

// Whether each person's set is the same in both.
fn all_same(people: usize, len: usize, a: &[u64], b: &[u64]) -> bool
    requires { (people ≤ 32) × (len ≤ 1024) × (16 * people ≤ length a.now) × (16 * people ≤ length b.now) }
    ensures { result ≡ same_sets a.now b.now people len }
{
    for p in 0..people {
        if !scan::same(a, b, paper::SET_WORDS * p, len) {
            return false;
        }
    }
    true
}

// Whether everybody's sets are the same below the length in two columns of words. Refusals 1, 2.
pub fn same_sets(people: usize, len: usize, a: &[u64], b: &[u64]) -> Result<bool, u8>
    ensures { result ≡ answer_as (number_of (same_sets_row a.now b.now people len))
        (same_sets a.now b.now people len) }
{
    let number = same_sets_refusal(people, len, a, b).number;
    if number == 0 {
        return Ok(all_same(people, len, a, b));
    }
    Err(number)
}
