// Scans over owners, units, sets and minutes: each answers the first place at fault, and reads what isn't lent as 0.
ghost use Rattle.std.specs.Prelude.{◌≡◌, ℕ, ◌<◌, ◌≤◌, max, true, length, ◌==◌, slice_index};
ghost use Rattle.paper.specs.Count.{all};
ghost use Rattle.owners.specs.Derived.{plan, known_by, portion, worked, unassigned};
ghost use Rattle.owners.specs.Recount.{first_fail, available_for, known_at, available_at, even_at, set_slot_at};
ghost use Rattle.owners.specs.Inside.{PlanSound, same_bit, same_entry};

use slotset::bit::holds;

// The owner of slot k; 0 where it isn't lent.
pub fn owner_at(owners: &[u8], k: usize) -> u8
    ensures { result ≡ slice_index owners.now k }
{
    owners.get(k).copied().unwrap_or(0)
}

// The minutes of a person; 0 where they aren't lent.
pub(crate) fn minutes_at(minutes: &[u64], person: usize) -> u64
    ensures { result ≡ slice_index minutes.now person }
{
    minutes.get(person).copied().unwrap_or(0)
}

// Whether an owner is nobody, or a person below the count.
#[tactic(auto, unfolding(crate::specs::Derived::known_by))]
pub fn known_by(people: usize, owner: u8) -> bool
    ensures { result ≡ known_by people owner }
{
    owner == paper::NOBODY || usize::from(owner) < people
}

// Whether an owner is nobody, or a person who is available for slot k.
#[tactic(auto, unfolding(crate::specs::Recount::available_for, units::specs::Domains::available))]
pub fn available_for(avail: &[u64], owner: u8, k: usize) -> bool
    ensures { result ≡ available_for avail.now owner k }
{
    owner == paper::NOBODY || holds(avail, owner, k)
}

// So many people that every owner is known among them: one more than the highest, nobody counting as none.
fn enough_people(slots: usize, owners: &[u8]) -> u8
    requires { slots ≤ length owners.now }
    ensures { (k : ℕ) → k < slots → known_by result (slice_index owners.now k) ≡ true }
{
    let mut most: u8 = 0;
    for k in 0..slots {
        most = most.max(owners[k].wrapping_add(1));
    }
    most
}

// Whether every owner is known, by one number: no owner stops the walk, so that a processor takes several at a time. No says nothing.
fn all_known(people: usize, slots: usize, owners: &[u8]) -> bool
    ensures { result ≡ true → all slots (known_at people owners.now) ≡ true }
{
    slots <= owners.len() && usize::from(enough_people(slots, owners)) <= people
}

// The first slot with an unknown owner, or the slot count, slot by slot.
fn find_unknown(people: usize, slots: usize, owners: &[u8]) -> usize
    ensures { result ≡ first_fail slots (known_at people owners.now) }
{
    for k in 0..slots {
        if !known_by(people, owner_at(owners, k)) {
            return k;
        }
    }
    slots
}

// The first slot with an unknown owner, or the slot count. It is looked for only where there may be one.
pub fn first_unknown(people: usize, slots: usize, owners: &[u8]) -> usize
    ensures { result ≡ first_fail slots (known_at people owners.now) }
{
    if all_known(people, slots, owners) {
        return slots;
    }
    find_unknown(people, slots, owners)
}

// The first slot whose owner is not available for it, or the slot count.
pub fn first_unavailable(slots: usize, avail: &[u64], owners: &[u8]) -> usize
    ensures { result ≡ first_fail slots (available_at avail.now owners.now) }
{
    for k in 0..slots {
        if !available_for(avail, owner_at(owners, k), k) {
            return k;
        }
    }
    slots
}

// Whether each slot of a unit has the owner of its first slot.
fn is_even(slots: usize, units: usize, begins: &[u16], owners: &[u8], unit: usize) -> bool
    ensures { result ≡ even_at slots units begins.now owners.now unit }
{
    let a = units::start_of(begins, unit);
    let e = units::unit_end(slots, units, begins, unit);
    let owner = owner_at(owners, a);
    for k in a..e {
        if owner_at(owners, k) != owner {
            return false;
        }
    }
    true
}

// The first unit with two owners, or the unit count.
pub fn first_uneven(slots: usize, units: usize, begins: &[u16], owners: &[u8]) -> usize
    ensures { result ≡ first_fail units (even_at slots units begins.now owners.now) }
{
    for u in 0..units {
        if !is_even(slots, units, begins, owners, u) {
            return u;
        }
    }
    units
}

// Whether a slot is in a person's set exactly when they own it; `there`: it is in the set.
fn same_bit(owner: u8, person: usize, there: bool) -> bool
    ensures { result ≡ same_bit there (owner == person) }
{
    there == (usize::from(owner) == person)
}

// The first slot at which a person's set is wrong, or the slot count.
pub(crate) fn first_wrong_slot(slots: usize, owners: &[u8], sets: &[u64], person: usize) -> usize
    requires { person < 32 }
    ensures { result ≡ first_fail slots (set_slot_at owners.now sets.now person) }
{
    for k in 0..slots {
        if !same_bit(owner_at(owners, k), person, holds(sets, person as u8, k)) {
            return k;
        }
    }
    slots
}

// What a slot of n minutes counts for a person.
#[tactic(auto, unfolding(crate::specs::Derived::portion))]
fn portion_of(owner: u8, person: usize, n: u32) -> u64
    ensures { result ≡ portion owner person n }
{
    if usize::from(owner) == person {
        u64::from(n)
    } else {
        0
    }
}

// A person's minutes, worked out from owners.
pub(crate) fn worked_by(
    people: usize,
    slots: usize,
    starts: &[u32],
    ends: &[u32],
    owners: &[u8],
    person: usize,
) -> u64
    requires plan_sound { PlanSound (plan people slots starts.now ends.now) }
    requires slots_in_bounds { slots ≤ length owners.now }
    ensures { result ≡ worked (plan people slots starts.now ends.now) owners.now person }
{
    let mut total: u64 = 0;
    for k in 0..slots {
        total += portion_of(owners[k], person, slots::minutes_at(starts, ends, k));
    }
    total
}

// The first of n entries of a column that is not the right one, or n.
pub(crate) fn first_wrong_entry(n: usize, column: &[u64], right: &[u64]) -> usize
    requires { (n ≤ length column.now) × (n ≤ length right.now) }
    ensures { result ≡ first_fail n (same_entry column.now right.now) }
{
    for i in 0..n {
        if column[i] != right[i] {
            return i;
        }
    }
    n
}

// How many of the slots nobody owns.
pub(crate) fn count_nobody(slots: usize, owners: &[u8]) -> usize
    ensures { result ≡ unassigned slots owners.now }
{
    let mut n: usize = 0;
    for k in 0..slots {
        if owner_at(owners, k) == paper::NOBODY {
            n += 1;
        }
    }
    n
}
