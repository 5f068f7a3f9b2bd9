// The entries that make, empty and read a rota.
ghost use Rattle.std.specs.Prelude.{◌≡◌, [], slice_index};
ghost use Rattle.paper.specs.Limits.{test};
ghost use Rattle.paper.specs.Rows.{refusal_of, next};
ghost use Rattle.owners.specs.Derived.{plan, derived, known_by};
ghost use Rattle.owners.specs.Entries.{from_slots_row, from_slots, empty_row, emptied, placeless, Ended};
ghost use Rattle.owners.specs.Entries.{owner_row, owner_is, minutes_row, minutes_is};
ghost use Rattle.owners.specs.Entries.{unassigned_row, unassigned_is, uncovered_row, uncovered_is, slots_of_is};

use crate::checks::{check_available, check_known, lent_refusal};
use crate::derived::{fill_owners, rebuild};
use crate::scan::{count_nobody, known_by, minutes_at, owner_at, worked_by};
use paper::Refusal;
use slotset::{Changed, SlotSet};

// What stands against making sets, minutes and totals from owners: 1, 2, 9, 11 or 12.
fn from_slots_refusal(
    people: usize,
    slots: usize,
    starts: &[u32],
    ends: &[u32],
    avail: &[u64],
    owners: &[u8],
    sets: &[u64],
    minutes: &[u64],
    totals: &[u64],
) -> Refusal
    ensures { result ≡ refusal_of (from_slots_row (plan people slots starts.now ends.now) avail.now
        owners.now (derived sets.now minutes.now totals.now)) }
{
    let f = lent_refusal(
        true, true, people, slots, starts, ends, avail, owners, sets, minutes, totals,
    );
    let f = check_known(f, people, slots, owners);
    check_available(f, slots, avail, owners)
}

// Sets, minutes and totals worked out from owners. Refusals 1, 2, 9, 11 (unknown owner), 12 (owner not available).
pub fn from_slots(
    people: usize,
    slots: usize,
    starts: &[u32],
    ends: &[u32],
    avail: &[u64],
    owners: &[u8],
    sets: &mut [u64],
    minutes: &mut [u64],
    totals: &mut [u64],
) -> u8
    ensures { Ended (from_slots (plan people slots starts.now ends.now) avail.now owners.now
        (derived sets.old minutes.old totals.old)) (placeless result) owners.now (derived sets.new minutes.new totals.new) [] }
{
    let n = from_slots_refusal(
        people, slots, starts, ends, avail, owners, sets, minutes, totals,
    )
    .number;
    if n == 0 {
        rebuild(people, slots, starts, ends, owners, sets, minutes, totals);
        return 0;
    }
    n
}

// What stands against an empty rota: 1, 2 or 9.
fn empty_refusal(
    people: usize,
    slots: usize,
    starts: &[u32],
    ends: &[u32],
    owners: &[u8],
    sets: &[u64],
    minutes: &[u64],
    totals: &[u64],
) -> Refusal
    ensures { result ≡ refusal_of (empty_row (plan people slots starts.now ends.now) owners.now
        (derived sets.now minutes.now totals.now)) }
{
    let f = paper::check_people(paper::accepted(), people);
    let f = paper::check_slots(f, slots);
    let f = slots::check_room(f, slots, starts, ends);
    let f = paper::check(f, slots <= owners.len(), 2);
    let g = paper::check_words(f, people, sets);
    let g = paper::check(g, people <= minutes.len(), 2);
    let g = paper::check(g, 2 <= totals.len(), 2);
    slots::check_order(g, slots, starts, ends, 9)
}

// An empty rota: nobody owns a slot, and sets, minutes and totals say so. Refusals 1, 2, 9.
pub fn empty(
    people: usize,
    slots: usize,
    starts: &[u32],
    ends: &[u32],
    owners: &mut [u8],
    sets: &mut [u64],
    minutes: &mut [u64],
    totals: &mut [u64],
) -> u8
    ensures { Ended (emptied (plan people slots starts.now ends.now) owners.old (derived
        sets.old minutes.old totals.old)) (placeless result) owners.new (derived sets.new
        minutes.new totals.new) [] }
{
    let n = empty_refusal(people, slots, starts, ends, owners, sets, minutes, totals).number;
    if n == 0 {
        fill_owners(owners, 0, slots, paper::NOBODY);
        rebuild(people, slots, starts, ends, owners, sets, minutes, totals);
        return 0;
    }
    n
}

// What stands against telling a slot's owner: 1, 2 or 11.
fn owner_refusal(people: usize, slots: usize, owners: &[u8], slot: usize) -> Refusal
    ensures { result ≡ refusal_of (owner_row people slots owners.now slot) }
{
    let f = paper::check_people(paper::accepted(), people);
    let f = paper::check_slots(f, slots);
    let f = paper::check(f, slots <= owners.len(), 2);
    let f = paper::check(f, slot < slots, 11);
    check_owner(f, people, owners, slot)
}

// Rule 11 of a slot's owner.
fn check_owner(before: Refusal, people: usize, owners: &[u8], slot: usize) -> Refusal
    ensures { result ≡ next before (test 11 (known_by people (slice_index owners.now slot))) }
{
    paper::check(before, known_by(people, owner_at(owners, slot)), 11)
}

// The owner of a slot, 255 for nobody. Refusals 1, 2, 11.
pub fn owner_of_slot(people: usize, slots: usize, owners: &[u8], slot: usize) -> Result<usize, u8>
    ensures { result ≡ owner_is people slots owners.now slot }
{
    let n = owner_refusal(people, slots, owners, slot).number;
    if n == 0 {
        return Ok(owner_at(owners, slot) as usize);
    }
    Err(n)
}

// What stands against telling a person's minutes: 1, 2 or 11.
fn minutes_refusal(people: usize, minutes: &[u64], person: usize) -> Refusal
    ensures { result ≡ refusal_of (minutes_row people minutes.now person) }
{
    let f = paper::check_people(paper::accepted(), people);
    let f = paper::check(f, people <= minutes.len(), 2);
    paper::check(f, person < people, 11)
}

// A person's minutes. Refusals 1, 2, 11.
pub fn minutes_of(people: usize, minutes: &[u64], person: usize) -> Result<u64, u8>
    ensures { result ≡ minutes_is people minutes.now person }
{
    let n = minutes_refusal(people, minutes, person).number;
    if n == 0 {
        return Ok(minutes_at(minutes, person));
    }
    Err(n)
}

// A person's slots, as a set by value. Refusals 1, 2, 11.
pub fn slots_of(people: usize, slots: usize, sets: &[u64], person: usize) -> Changed
    ensures { result ≡ slots_of_is people slots sets.now person }
{
    if paper::slot_count_ok(slots) {
        return slotset::row::load(people, slots, sets, person);
    }
    Changed {
        set: SlotSet {
            words: [0u64; 16],
            len: 0,
        },
        number: 1,
    }
}

// What stands against counting the slots that nobody owns: 1, 2 or 11.
fn unassigned_refusal(people: usize, slots: usize, owners: &[u8]) -> Refusal
    ensures { result ≡ refusal_of (unassigned_row people slots owners.now) }
{
    let f = paper::check_people(paper::accepted(), people);
    let f = paper::check_slots(f, slots);
    let f = paper::check(f, slots <= owners.len(), 2);
    check_known(f, people, slots, owners)
}

// How many slots nobody owns. Refusals 1, 2, 11 (unknown owner).
pub fn unassigned_count(people: usize, slots: usize, owners: &[u8]) -> Result<usize, u8>
    ensures { result ≡ unassigned_is people slots owners.now }
{
    let n = unassigned_refusal(people, slots, owners).number;
    if n == 0 {
        return Ok(count_nobody(slots, owners));
    }
    Err(n)
}

// What stands against telling the minutes that nobody owns: 1, 2, 9 or 11.
fn uncovered_refusal(
    people: usize,
    slots: usize,
    starts: &[u32],
    ends: &[u32],
    owners: &[u8],
) -> Refusal
    ensures { result ≡ refusal_of (uncovered_row (plan people slots starts.now ends.now) owners.now) }
{
    let f = paper::check_people(paper::accepted(), people);
    let f = paper::check_slots(f, slots);
    let f = slots::check_room(f, slots, starts, ends);
    let f = paper::check(f, slots <= owners.len(), 2);
    let f = slots::check_order(f, slots, starts, ends, 9);
    check_known(f, people, slots, owners)
}

// The minutes that nobody owns. Refusals 1, 2, 9, 11 (unknown owner).
pub fn uncovered_minutes(
    people: usize,
    slots: usize,
    starts: &[u32],
    ends: &[u32],
    owners: &[u8],
) -> Result<u64, u8>
    ensures { result ≡ uncovered_is (plan people slots starts.now ends.now) owners.now }
{
    let n = uncovered_refusal(people, slots, starts, ends, owners).number;
    if n == 0 {
        return Ok(worked_by(people, slots, starts, ends, owners, 255));
    }
    Err(n)
}
