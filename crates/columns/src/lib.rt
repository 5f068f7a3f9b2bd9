// The published owners and the draft's side by side, over the same slots. A manager reads the published column where a slot is frozen
// and the draft elsewhere; draws are played on the draft alone.
#![tactic(auto)]

ghost use Rattle.std.specs.Prelude.{◌≡◌, ◌≤◌, ◌<◌, length};
ghost use Rattle.paper.specs.Limits.{number_of};
ghost use Rattle.paper.specs.Rows.{refusal_of, answer_as};
ghost use Rattle.paper.specs.Count.{over};
ghost use Rattle.columns.specs.Parts.{columns_row, stretch_row, is_frozen, next_change, part_at, stretch_of, IsPart};
ghost use Rattle.columns.specs.Publishing.{owner_read, publish_of, show_row, show_of};
ghost use Rattle.columns.specs.Inside.{Sound, answered_or};

use paper::Refusal;
use slotset::{bit, row};

// What stands against two columns and their flags: 1 or 2.
fn columns_refusal(slots: usize, published: &[u8], draft: &[u8], frozen: &[u64]) -> Refusal
    ensures { result ≡ refusal_of (columns_row slots published.now draft.now frozen.now) }
{
    let f = paper::check_slots(paper::accepted(), slots);
    let f = paper::check(f, published.len() == draft.len(), 2);
    let f = paper::check(f, slots <= published.len(), 2);
    paper::check_words(f, 1, frozen)
}

// What stands against a slot's part: 1, 2 or 11.
pub fn stretch_refusal(
    slots: usize,
    published: &[u8],
    draft: &[u8],
    frozen: &[u64],
    slot: usize,
) -> Refusal
    ensures { result ≡ refusal_of (stretch_row slots published.now draft.now frozen.now slot) }
{
    let f = columns_refusal(slots, published, draft, frozen);
    paper::check(f, slot < slots, 11)
}

// Whether a slot is frozen.
fn is_frozen(frozen: &[u64], slot: usize) -> bool
    ensures { result ≡ is_frozen frozen.now slot }
{
    bit::holds(frozen, 0, slot)
}

// Which column a slot's part is of: yes, the published one; no, the draft.
pub fn is_published(
    slots: usize,
    published: &[u8],
    draft: &[u8],
    frozen: &[u64],
    slot: usize,
) -> Result<bool, u8>
    ensures { result ≡ answer_as (number_of (stretch_row slots published.now draft.now frozen.now slot))
        (is_frozen frozen.now slot) }
{
    let number = stretch_refusal(slots, published, draft, frozen, slot).number;
    if number == 0 {
        return Ok(is_frozen(frozen, slot));
    }
    Err(number)
}

// The slot found, else the count.
fn found_or(slots: usize, found: Result<Option<usize>, u8>) -> usize
    ensures { result ≡ answered_or slots found }
{
    match found {
        Ok(Some(k)) => k,
        Ok(None) | Err(_) => slots,
    }
}

// The next change between frozen and not frozen: the first slot after this one whose flag is the other one, else the count.
fn next_change(slots: usize, frozen: &[u64], slot: usize) -> usize
    requires { (slots ≤ 1024) × (16 ≤ length frozen.now) × (slot < slots) }
    ensures { (result ≡ next_change slots frozen.now slot) × (slot < result) × (result ≤ slots) }
{
    if is_frozen(frozen, slot) {
        return found_or(slots, row::next_unset_after(1, slots, frozen, 0, slot));
    }
    found_or(slots, row::next_set(1, slots, frozen, 0, slot + 1))
}

// A slot's part, of columns and flags that were judged.
fn part_at<'a>(
    slots: usize,
    published: &'a [u8],
    draft: &'a [u8],
    frozen: &[u64],
    slot: usize,
) -> &'a [u8]
    requires sound { Sound slots published.now draft.now frozen.now }
    requires slot_lt_slots { slot < slots }
    ensures { IsPart (part_at slots frozen.now slot) published.entry draft.entry result }
{
    let upto = next_change(slots, frozen, slot);
    if is_frozen(frozen, slot) {
        return &published[slot..upto];
    }
    &draft[slot..upto]
}

// A slot's part: from the slot up to the next change between frozen and not frozen, of the published column where the slot is frozen,
// of the draft where not. Refused, an empty part, and `stretch_refusal` says why.
pub fn stretch<'a>(
    slots: usize,
    published: &'a [u8],
    draft: &'a [u8],
    frozen: &[u64],
    slot: usize,
) -> &'a [u8]
    ensures { IsPart (stretch_of slots published.now draft.now frozen.now slot)
        published.entry draft.entry result }
{
    let number = stretch_refusal(slots, published, draft, frozen, slot).number;
    if number == 0 {
        return part_at(slots, published, draft, frozen, slot);
    }
    &published[0..0]
}

// The draft's owner of each slot that is not frozen goes into the published column.
fn copy_open(slots: usize, draft: &[u8], frozen: &[u64], published: &mut [u8])
    requires { Sound slots published.old draft.now frozen.now }
    ensures { published.new
        ≡ over (owner_read published.old draft.now frozen.now) slots published.old }
{
    for k in 0..slots {
        if !is_frozen(frozen, k) {
            published[k] = draft[k];
        }
    }
}

// Publishing: slots that are not frozen get the draft's owners, frozen ones keep theirs, and so do entries past the count.
pub fn publish(slots: usize, draft: &[u8], frozen: &[u64], published: &mut [u8]) -> u8
    ensures { (result ≡ number_of (columns_row slots published.old draft.now frozen.now))
        × (published.new ≡ publish_of slots draft.now frozen.now published.old) }
{
    let number = columns_refusal(slots, published, draft, frozen).number;
    if number == 0 {
        copy_open(slots, draft, frozen, published);
        return 0;
    }
    number
}

// A part's owners go into a list as long, one by one: the library's copy would ask whoever links the archive for `memmove`.
fn put_part(part: &[u8], shown: &mut [u8])
    requires { length shown.old ≡ length part.now }
    ensures { shown.new ≡ part.now }
{
    for k in 0..part.len() {
        shown[k] = part[k];
    }
}

// The walk by parts, from slot 0 on, into a list with room for them.
fn show_parts<'a>(
    slots: usize,
    published: &'a [u8],
    draft: &'a [u8],
    frozen: &[u64],
    shown: &mut [u8],
)
    requires sound { Sound slots published.now draft.now frozen.now }
    requires slots_in_bounds { slots ≤ length shown.old }
    ensures { shown.new
        ≡ over (owner_read published.now draft.now frozen.now) slots shown.old }
{
    let mut at = 0;
    // a while: each step jumps to the end of the part found, so no range is walked
    while at < slots {
        let part = part_at(slots, published, draft, frozen, at);
        let upto = at + part.len();
        put_part(part, &mut shown[at..upto]);
        at = upto;
    }
}

// What stands against the list screen: 1 or 2.
fn show_refusal(
    slots: usize,
    published: &[u8],
    draft: &[u8],
    frozen: &[u64],
    shown: &[u8],
) -> Refusal
    ensures { result ≡ refusal_of (show_row slots published.now draft.now frozen.now
        shown.now) }
{
    let f = columns_refusal(slots, published, draft, frozen);
    paper::check(f, slots <= shown.len(), 2)
}

// The list screen: each slot's owner, frozen ones as published and others as in the draft, part by part.
pub fn show<'a>(
    slots: usize,
    published: &'a [u8],
    draft: &'a [u8],
    frozen: &[u64],
    shown: &mut [u8],
) -> u8
    ensures { (result
        ≡ number_of (show_row slots published.now draft.now frozen.now shown.old))
        × (shown.new ≡ show_of slots published.now draft.now frozen.now shown.old) }
{
    let number = show_refusal(slots, published, draft, frozen, shown).number;
    if number == 0 {
        show_parts(slots, published, draft, frozen, shown);
        return 0;
    }
    number
}
