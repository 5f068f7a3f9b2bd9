// Availability of lent slots, any that pass rule 3: one set a person; and its single question.
ghost use Rattle.std.specs.Prelude.{◌≡◌, true, ℕ, ◌+◌, ◌*◌, ◌≤◌, ◌<◌, length, get_or, take};
ghost use Rattle.paper.specs.Limits.{people_ok, number_of};
ghost use Rattle.paper.specs.Rows.{refusal_of};
ghost use Rattle.slotset.specs.Slots.{put_slots};
ghost use Rattle.slots.specs.Lent.{SlotsSound};
ghost use Rattle.slots.specs.Ranges.{ranges};
ghost use Rattle.slots.specs.Availability.{availability_row, availability_of, available_row, is_available, rows};
ghost use Rattle.slots.specs.Inside.{opens, SpacedKeys, Opening, reaches, held_bit};

use crate::{lent, ranges};
use paper::Refusal;
use slotset::row;

// How many of the merged ranges open at a place of the line or before it, where the first `low` do: a walk on from there.
fn opened_by_from(keys: &[u64], n: usize, low: usize, place: u64) -> usize
    requires n_bound { (n ≤ 1024) × (n ≤ length keys.now) × SpacedKeys 0 (take n keys.now) }
    requires low_le_n { (low ≤ n) × ((k : ℕ) → k < low → opens (get_or keys.now k 0) ≤ place) }
    ensures { Opening n (λ k. opens (get_or keys.now k 0)) place result }
{
    for r in low..n {
        if place < ranges::opens_at(keys[r]) {
            return r;
        }
    }
    n
}

// Whether the last of the first r merged ranges closes at a place or past it.
fn reaches(keys: &[u64], r: usize, place: u64) -> bool
    requires { (r ≤ 1024) × (r ≤ length keys.now) }
    ensures { result ≡ reaches keys.now r place }
{
    if 0 < r {
        place <= ranges::closes_at(keys[r - 1])
    } else {
        false
    }
}

// One person's set. Slots ascend, so the ranges that open by a slot's start are those of the slot before it, and more; the last of them is
// the only one that may hold the slot.
fn fill_row(
    keys: &[u64],
    n: usize,
    slots: usize,
    starts: &[u32],
    ends: &[u32],
    words: &mut [u64],
    people: usize,
    person: usize,
)
    requires n_bound { (n ≤ 1024) × (n ≤ length keys.now) × SpacedKeys 0 (take n keys.now) }
    requires slots_bound { (slots ≤ 1024) × SlotsSound slots starts.now ends.now }
    requires people_value { (people_ok people ≡ true) × (16 * people ≤ length words.old) × (person < people) }
    ensures { words.new ≡ put_slots (held_bit (take n keys.now) starts.now ends.now person)
        (16 * person) 0 slots words.old }
{
    let base = (person as u64) * ranges::WIDTH;
    let mut opened: usize = 0;
    for k in 0..slots {
        opened = opened_by_from(keys, n, opened, base + starts[k] as u64);
        let want = reaches(keys, opened, base + ends[k] as u64);
        row::put_stretch(people, slots, words, person, k, k + 1, want);
    }
}

// Everybody's sets.
fn fill_rows(
    keys: &[u64],
    n: usize,
    slots: usize,
    starts: &[u32],
    ends: &[u32],
    words: &mut [u64],
    people: usize,
)
    requires n_bound { (n ≤ 1024) × (n ≤ length keys.now) × SpacedKeys 0 (take n keys.now) }
    requires slots_bound { (slots ≤ 1024) × SlotsSound slots starts.now ends.now }
    requires people_value { (people_ok people ≡ true) × (16 * people ≤ length words.old) }
    ensures { words.new ≡ rows (held_bit (take n keys.now) starts.now ends.now)
        slots people words.old }
{
    for person in 0..people {
        fill_row(keys, n, slots, starts, ends, words, people, person);
    }
}

// What is wrong with what availability takes: 1, 2, 4 or 9.
fn availability_refusal(
    people: usize,
    slots: usize,
    count: usize,
    starts: &[u32],
    ends: &[u32],
    persons: &[u16],
    opens: &[u32],
    shuts: &[u32],
    words: &[u64],
) -> Refusal
    ensures { result ≡ refusal_of (availability_row people slots starts.now ends.now
        (ranges count persons.now opens.now shuts.now) words.now) }
{
    let f = paper::check_people(paper::accepted(), people);
    let f = paper::check_slots(f, slots);
    let f = ranges::check_range_count(f, count);
    let f = lent::check_room(f, slots, starts, ends);
    let f = ranges::check_range_room(f, count, persons, opens, shuts);
    let f = paper::check_words(f, people, words);
    let f = ranges::check_ranges(f, people, count, persons, opens, shuts);
    lent::check_order(f, slots, starts, ends, 9)
}

// One set a person: slot k is in it exactly when each of its minutes lies in one of the person's ranges. Refusals 1, 2, 4, 9.
pub fn availability(
    people: usize,
    slots: usize,
    count: usize,
    starts: &[u32],
    ends: &[u32],
    persons: &[u16],
    opens: &[u32],
    shuts: &[u32],
    words: &mut [u64],
) -> u8
    ensures { (result ≡ number_of (availability_row people slots starts.now ends.now
        (ranges count persons.now opens.now shuts.now) words.old))
        × (words.new ≡ availability_of people slots starts.now ends.now
        (ranges count persons.now opens.now shuts.now) words.old) }
{
    let number = availability_refusal(
        people, slots, count, starts, ends, persons, opens, shuts, words,
    )
    .number;
    if number == 0 {
        let list = ranges::merged_keys(count, persons, opens, shuts);
        let keys = list.keys;
        let n = list.count;
        fill_rows(&keys, n, slots, starts, ends, words, people);
        return 0;
    }
    number
}

// What is wrong with the question: 1, 2 or 11.
fn available_refusal(
    people: usize,
    slots: usize,
    avail: &[u64],
    person: usize,
    slot: usize,
) -> Refusal
    ensures { result ≡ refusal_of (available_row people slots avail.now person slot) }
{
    let f = paper::check_people(paper::accepted(), people);
    let f = paper::check_slots(f, slots);
    let f = paper::check_words(f, people, avail);
    let f = paper::check(f, person < people, 11);
    paper::check(f, slot < slots, 11)
}

// May this person cover this slot? Refusals 1, 2, 11.
pub fn is_available(
    people: usize,
    slots: usize,
    avail: &[u64],
    person: usize,
    slot: usize,
) -> Result<bool, u8>
    ensures { result ≡ is_available people slots avail.now person slot }
{
    let number = available_refusal(people, slots, avail, person, slot).number;
    if number == 0 {
        return row::contains(people, slots, avail, person, slot);
    }
    Err(number)
}
