// The scans over a set's words where they stand: in a slice, from word `base` on. Sets by value and rows both ask here.
ghost use Rattle.std.specs.Prelude.{◌≡◌, not, cond, ◌+◌, ◌-◌, ◌*◌, ◌≤◌, ◌<◌, min, length};
ghost use Rattle.slotset.specs.Slots.{slot, value_of, has, size, has_no_member, same_slots, put_slots};
ghost use Rattle.slotset.specs.Search.{next_with, next_set, down, last_below, prev_set, next_unset_after};
ghost use Rattle.slotset.specs.Inside.{found_below, Below, Above, SkippedUp, SkippedDown};
ghost use Rattle.slotset.specs.declared.Run.TheVariants.{Span, Hole};
ghost use Rattle.slotset.specs.Runs.{start_of, end_of};
ghost use Rattle.slotset.specs.Answers.{run_at, run_step, member_step};

use crate::{Cursor, NextMember, NextRun, Run, word};

// The lesser of two numbers.
pub(crate) fn least(a: usize, b: usize) -> usize
    ensures { result ≡ min a b }
{
    a.min(b)
}

// Whether slot i is a member; at or past the length it is not.
pub(crate) fn contains(words: &[u64], base: usize, len: usize, i: usize) -> bool
    requires { (base + 16 ≤ length words.now) × (len ≤ 1024) }
    ensures { result ≡ has (slot words.now base) len i }
{
    if i < len {
        word::bit(words[base + i / 64], i % 64)
    } else {
        false
    }
}

// The slot that a search came to; nothing where that is not below the length.
fn found_below(len: usize, hit: usize) -> Option<usize>
    ensures { result ≡ found_below len hit }
{
    if hit < len { Some(hit) } else { None }
}

// The first slot at or after `from` that is as wanted: in its word from its bit on, then in whole words.
pub(crate) fn next_with(
    words: &[u64],
    base: usize,
    len: usize,
    want: bool,
    from: usize,
) -> Option<usize>
    requires { (base + 16 ≤ length words.now) × (len ≤ 1024) }
    ensures { result ≡ next_with (value_of want) (slot words.now base) len from }
{
    if from < len {
        let j = from / 64;
        let k = word::first_bit(words[base + j], want, from % 64);
        if k == 64 {
            return next_in_words(words, base, len, want, j + 1);
        }
        return found_below(len, j * 64 + k);
    }
    None
}

// The first slot from word `first` on that is as wanted. No word is masked, so that one with none costs one comparison.
fn next_in_words(words: &[u64], base: usize, len: usize, want: bool, first: usize) -> Option<usize>
    requires { (base + 16 ≤ length words.now) × (len ≤ 1024) × (first ≤ 16) }
    ensures { result ≡ next_with (value_of want) (slot words.now base) len (first * 64) }
{
    for j in first..(len + 63) / 64 {
        let k = word::first_bit(words[base + j], want, 0);
        if k != 64 {
            return found_below(len, j * 64 + k);
        }
    }
    None
}

// The last slot below `before` that is as wanted: in its word up to its bit, then in whole words.
pub(crate) fn last_below(
    words: &[u64],
    base: usize,
    len: usize,
    want: bool,
    before: usize,
) -> Option<usize>
    requires { (base + 16 ≤ length words.now) × (len ≤ 1024) }
    ensures { result ≡ last_below (value_of want) (slot words.now base) len before }
{
    let end = least(before, len);
    if 0 < end {
        let last = end - 1;
        let j = last / 64;
        let k = word::last_bit(words[base + j], want, last % 64);
        if k == 0 {
            return last_in_words(words, base, want, j);
        }
        return Some(j * 64 + k - 1);
    }
    None
}

// The last slot below word `before` that is as wanted. No word is masked, so that one with none costs one comparison.
fn last_in_words(words: &[u64], base: usize, want: bool, before: usize) -> Option<usize>
    requires { (base + 16 ≤ length words.now) × (before ≤ 16) }
    ensures { result ≡ down (value_of want) (slot words.now base) (before * 64) }
{
    for j in (0..before).rev() {
        let k = word::last_bit(words[base + j], want, 63);
        if k != 0 {
            return Some(j * 64 + k - 1);
        }
    }
    None
}

// How many members the set has: whole words, then what is left of the last one. Of the longest set how many words is known beforehand.
pub(crate) fn count(words: &[u64], base: usize, len: usize) -> usize
    requires { (base + 16 ≤ length words.now) × (len ≤ 1024) }
    ensures { result ≡ size (slot words.now base) len }
{
    if len == paper::SLOTS_MOST {
        return count_words(words, base, paper::SET_WORDS);
    }
    let whole = len / 64;
    let rest = len % 64;
    let n = count_words(words, base, whole);
    if 0 < rest {
        return n + word::ones_below(words[base + whole], rest);
    }
    n
}

// How many members stand in the first `whole` words.
fn count_words(words: &[u64], base: usize, whole: usize) -> usize
    requires { (base + 16 ≤ length words.now) × (whole ≤ 16) }
    ensures { (result ≡ size (slot words.now base) (whole * 64)) × (result ≤ whole * 64) }
{
    let mut n = 0;
    for j in 0..whole {
        n += word::ones_below(words[base + j], 64);
    }
    n
}

// Whether two sets of one length have the same slots: word by word, of the last one the bits below the length.
pub(crate) fn same(a: &[u64], b: &[u64], base: usize, len: usize) -> bool
    requires { (base + 16 ≤ length a.now) × (base + 16 ≤ length b.now) × (len ≤ 1024) }
    ensures { result ≡ same_slots (slot a.now base) (slot b.now base) len }
{
    for j in 0..(len + 63) / 64 {
        let e = least(64, len - j * 64);
        if !word::same_below(a[base + j], b[base + j], e) {
            return false;
        }
    }
    true
}

// Each slot from `from` up to `to` becomes as wanted.
pub(crate) fn put_slots(words: &mut [u64], base: usize, want: bool, from: usize, to: usize)
    requires { (base + 16 ≤ length words.old) × (from < to → to ≤ 1024) }
    ensures { words.new ≡ put_slots (λ _. value_of want) base from (to - from) words.old }
{
    let x = word::every(want);
    let mut at = from;
    // a while: the first and the last step take a part of their word, so no range of words is walked
    while at < to {
        let j = at / 64;
        let e = least(64, to - j * 64);
        words[base + j] = word::merge(words[base + j], x, at % 64, e);
        at = j * 64 + e;
    }
}

// The first `whole` words become 0.
fn clear_words(words: &mut [u64], base: usize, whole: usize)
    requires { (base + 16 ≤ length words.old) × (whole ≤ 16) }
    ensures { words.new ≡ put_slots (λ _. 0) base 0 (whole * 64) words.old }
{
    for j in 0..whole {
        words[base + j] = word::merge(words[base + j], 0, 0, 64);
    }
}

// Every slot below the length becomes none: whole words, then what is left of the last one.
pub(crate) fn clear(words: &mut [u64], base: usize, len: usize)
    requires { (base + 16 ≤ length words.old) × (len ≤ 1024) }
    ensures { words.new ≡ put_slots (λ _. 0) base 0 len words.old }
{
    let whole = len / 64;
    let rest = len % 64;
    clear_words(words, base, whole);
    if 0 < rest {
        words[base + whole] = word::merge(words[base + whole], 0, 0, rest);
    }
}

// The slots of src below len go to the words from `base` on; the bits past them stay.
pub(crate) fn copy_slots(src: &[u64], len: usize, words: &mut [u64], base: usize)
    requires { (base + 16 ≤ length words.old) × (len ≤ 1024) × (length src.now ≡ 16) }
    ensures { words.new ≡ put_slots (slot src.now 0) base 0 len words.old }
{
    let mut at = 0;
    // a while, as in `put_slots`
    while at < len {
        let j = at / 64;
        let e = least(64, len - j * 64);
        words[base + j] = word::merge(words[base + j], src[j], at % 64, e);
        at = j * 64 + e;
    }
}

// One past the last word below `before` that is not x; at least 1 where there is a word.
fn skip_down(words: &[u64], base: usize, x: u64, before: usize) -> usize
    requires { base + before ≤ length words.now }
    ensures { SkippedDown words.now base x before result }
{
    for j in (1..before).rev() {
        if words[base + j] != x {
            return j + 1;
        }
    }
    before.min(1)
}

// The first word from `first` up to `end` that is not x, or `end`.
fn skip_up(words: &[u64], base: usize, x: u64, first: usize, end: usize) -> usize
    requires { (base + end ≤ length words.now) × (first ≤ end) }
    ensures { SkippedUp words.now base x first end result }
{
    for j in first..end {
        if words[base + j] != x {
            return j;
        }
    }
    end
}

// The last slot of a stretch that a search from one of its slots ended at `hit`: one before that, or the last slot.
fn last_of(len: usize, hit: usize) -> usize
    requires { (0 < len) × (0 < hit) }
    ensures { result ≡ end_of len (found_below len hit) }
{
    if hit < len { hit - 1 } else { len - 1 }
}

// Where a stretch of slots that are as wanted starts that goes on below word `before`: words that are all as wanted are skipped.
fn start_in_words(words: &[u64], base: usize, want: bool, before: usize) -> usize
    requires { (base + 16 ≤ length words.now) × (before ≤ 16) }
    ensures { result ≡ start_of (down (value_of (not want)) (slot words.now base) (before * 64)) }
{
    let end = skip_down(words, base, word::every(want), before);
    if 0 < end {
        let j = end - 1;
        let k = word::last_bit(words[base + j], !want, 63);
        if k == 0 {
            return 0;
        }
        return j * 64 + k;
    }
    0
}

// Where it ends that goes on at word `first`.
fn end_in_words(words: &[u64], base: usize, len: usize, want: bool, first: usize) -> usize
    requires { (base + 16 ≤ length words.now) × (len ≤ 1024) × (0 < len) × (0 < first) × (first * 64 < len + 64) }
    ensures { result ≡ end_of len (next_with (value_of (not want)) (slot words.now base) len (first * 64)) }
{
    let end = (len + 63) / 64;
    let j = skip_up(words, base, word::every(want), first, end);
    if j < end {
        return last_of(len, j * 64 + word::first_bit(words[base + j], !want, 0));
    }
    len - 1
}

// The first slot of the stretch around slot i of slots that are as wanted, as it is: what isn't is looked for in its word, then in whole words.
pub(crate) fn start_around(words: &[u64], base: usize, want: bool, i: usize) -> usize
    requires { (base + 16 ≤ length words.now) × (i < 1024) }
    ensures { result ≡ start_of (down (value_of (not want)) (slot words.now base) (i + 1)) }
{
    let j = i / 64;
    let k = word::last_bit(words[base + j], !want, i % 64);
    if k == 0 {
        return start_in_words(words, base, want, j);
    }
    j * 64 + k
}

// Its last slot.
pub(crate) fn end_around(words: &[u64], base: usize, len: usize, want: bool, i: usize) -> usize
    requires { (base + 16 ≤ length words.now) × (len ≤ 1024) × (i < len) × (slot words.now base i ≡ value_of want) }
    ensures { result ≡ end_of len (next_with (value_of (not want)) (slot words.now base) len i) }
{
    let j = i / 64;
    let k = word::first_bit(words[base + j], !want, i % 64);
    if k == 64 {
        return end_in_words(words, base, len, want, j + 1);
    }
    last_of(len, j * 64 + k)
}

// A stretch by its ends: of members a run, of others a hole.
pub(crate) fn held_by(want: bool, first: usize, last: usize) -> Run
    ensures { result ≡ cond want (Span first last) (Hole first last) }
{
    if want {
        Run::Span { first, last }
    } else {
        Run::Hole { first, last }
    }
}

// The run that holds slot i, or the hole.
pub(crate) fn run_bounds(words: &[u64], base: usize, len: usize, i: usize) -> Run
    requires { (base + 16 ≤ length words.now) × (len ≤ 1024) }
    ensures { result ≡ run_at (slot words.now base) len i }
{
    if i < len {
        let want = contains(words, base, len, i);
        let first = start_around(words, base, want, i);
        return held_by(want, first, end_around(words, base, len, want, i));
    }
    Run::Outside
}

// One before the slot found, or the last slot.
pub(crate) fn end_of(f: Option<usize>, len: usize) -> usize
    requires { (0 < len) × (Above 0 f) }
    ensures { result ≡ end_of len f }
{
    match f {
        Some(k) => k - 1,
        None => len - 1,
    }
}

// The run that starts at the first member from `at` on, and the cursor one past it.
pub(crate) fn next_run(words: &[u64], base: usize, len: usize, at: usize) -> Option<NextRun>
    requires { (base + 16 ≤ length words.now) × (len ≤ 1024) }
    ensures { result ≡ run_step (slot words.now base) len (next_set (slot words.now base) len at) }
{
    let found = next_with(words, base, len, true, at);
    match found {
        Some(first) => {
            let last = end_of(next_with(words, base, len, false, first + 1), len);
            Some(NextRun {
                first,
                last,
                next: Cursor { at: last + 1 },
            })
        }
        None => None,
    }
}

// Whether the set has no member.
pub(crate) fn is_empty(words: &[u64], base: usize, len: usize) -> bool
    requires { (base + 16 ≤ length words.now) × (len ≤ 1024) }
    ensures { result ≡ has_no_member (slot words.now base) len }
{
    let found = next_with(words, base, len, true, 0);
    match found {
        Some(_) => false,
        None => true,
    }
}

// The last member at or before `from`; a start past the end is lowered to the last slot.
pub(crate) fn prev_set(words: &[u64], base: usize, len: usize, from: usize) -> Option<usize>
    requires { (base + 16 ≤ length words.now) × (len ≤ 1024) }
    ensures { result ≡ prev_set (slot words.now base) len from }
{
    if from < len {
        last_below(words, base, len, true, from + 1)
    } else {
        last_below(words, base, len, true, len)
    }
}

// The first slot after `from` that is no member.
pub(crate) fn next_unset_after(words: &[u64], base: usize, len: usize, from: usize) -> Option<usize>
    requires { (base + 16 ≤ length words.now) × (len ≤ 1024) }
    ensures { result ≡ next_unset_after (slot words.now base) len from }
{
    if from < len {
        next_with(words, base, len, false, from + 1)
    } else {
        None
    }
}

// The next member from what was found.
fn member_step(f: Option<usize>) -> Option<NextMember>
    requires { Below 1024 f }
    ensures { result ≡ member_step f }
{
    match f {
        Some(i) => Some(NextMember {
            at: i,
            next: Cursor { at: i + 1 },
        }),
        None => None,
    }
}

// The next member from `at` on, and the cursor one past it.
pub(crate) fn next_member(words: &[u64], base: usize, len: usize, at: usize) -> Option<NextMember>
    requires { (base + 16 ≤ length words.now) × (len ≤ 1024) }
    ensures { result ≡ member_step (next_set (slot words.now base) len at) }
{
    member_step(next_with(words, base, len, true, at))
}
