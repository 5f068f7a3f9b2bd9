// The recount: which part of a rota is at fault, and its lowest place.
ghost use Rattle.std.specs.Prelude.{◌≡◌, ◌*◌, ◌≤◌, true, false, length, nat_le};
ghost use Rattle.paper.specs.Rows.{refusal_of};
ghost use Rattle.slotset.specs.Answers.{same_sets};
ghost use Rattle.owners.specs.Derived.{plan, derived};
ghost use Rattle.owners.specs.Recount.{first_fail, derived_tests, recount_tests};
ghost use Rattle.owners.specs.Inside.{PlanSound, Makes, RotaRoom, is_yes, same_set};
ghost use Rattle.owners.specs.Entries.{recount_row, recount_slots_row};

use crate::checks::lent_refusal;
use crate::derived::rebuild;
use crate::scan::{
    first_unavailable, first_uneven, first_unknown, first_wrong_entry, first_wrong_slot,
};
use paper::Refusal;

// Whether an answer is yes.
fn is_yes(answer: Result<bool, u8>) -> bool
    ensures { result ≡ is_yes answer }
{
    matches!(answer, Ok(true))
}

// Whether everybody's sets are the right ones.
fn sets_right(people: usize, slots: usize, sets: &[u64], right: &[u64]) -> bool
    requires { (1 ≤ people) × (people ≤ 32) × (slots ≤ 1024) × (16 * people ≤ length sets.now) × (16 * people ≤ length right.now) }
    ensures { result ≡ same_sets sets.now right.now people slots }
{
    is_yes(slotset::row::same_sets(people, slots, sets, right))
}

// The first person whose set is wrong, where somebody's is: by halves, since the sets of the first people are compared word by word.
fn first_wrong_set(people: usize, slots: usize, sets: &[u64], right: &[u64]) -> usize
    requires le_people { (1 ≤ people) × (people ≤ 32) × (slots ≤ 1024) × (16 * people ≤ length sets.now)
        × (16 * people ≤ length right.now) }
    requires slots_value { same_sets sets.now right.now people slots ≡ false }
    ensures { result ≡ first_fail people (same_set slots sets.now right.now) }
{
    let mut low: usize = 0;
    let mut high = people;
    // a while: a search by halves, so no range is walked
    while low + 1 < high {
        let middle = low + (high - low) / 2;
        if sets_right(middle, slots, sets, right) {
            low = middle;
        } else {
            high = middle;
        }
    }
    low
}

// The recount's refusal of a part of what was lent, at a place.
fn refusal_in(part: u8, place: usize, second: usize) -> Refusal
    ensures { result ≡ record { number = 10; part = part; place = place; second = second } }
{
    Refusal {
        number: 10,
        part,
        place,
        second,
    }
}

// Of sets, minutes and totals, which are worked out anew beside them: wrong set 4, wrong minutes 5, wrong total 6.
fn derived_refusal(
    people: usize,
    slots: usize,
    starts: &[u32],
    ends: &[u32],
    owners: &[u8],
    sets: &[u64],
    minutes: &[u64],
    totals: &[u64],
) -> Refusal
    requires plan_sound { PlanSound (plan people slots starts.now ends.now) }
    requires makes { Makes (plan people slots starts.now ends.now) owners.now (derived sets.now minutes.now totals.now) }
    ensures { result ≡ refusal_of (derived_tests (plan people slots starts.now ends.now) owners.now
        (derived sets.now minutes.now totals.now)) }
{
    let mut right_sets = [0u64; 512];
    let mut right_minutes = [0u64; 32];
    let mut right_totals = [0u64; 2];
    rebuild(
        people,
        slots,
        starts,
        ends,
        owners,
        &mut right_sets,
        &mut right_minutes,
        &mut right_totals,
    );
    if sets_right(people, slots, sets, &right_sets) {
        let person = first_wrong_entry(people, minutes, &right_minutes);
        if person < people {
            return refusal_in(5, person, 0);
        }
        let total = first_wrong_entry(2, totals, &right_totals);
        if total < 2 {
            return refusal_in(6, total, 0);
        }
        return paper::accepted();
    }
    let person = first_wrong_set(people, slots, sets, &right_sets);
    let slot = first_wrong_slot(slots, owners, sets, person);
    refusal_in(4, person, slot)
}

// The first refusal, part by part in the paper's order: unknown owner 1, not available 2, uneven unit 3, then what is derived.
fn recount_refusal(
    people: usize,
    slots: usize,
    units: usize,
    starts: &[u32],
    ends: &[u32],
    avail: &[u64],
    begins: &[u16],
    owners: &[u8],
    sets: &[u64],
    minutes: &[u64],
    totals: &[u64],
) -> Refusal
    requires plan_sound { PlanSound (plan people slots starts.now ends.now) }
    requires rota_room { RotaRoom people slots avail.now owners.now (derived sets.now minutes.now totals.now) }
    ensures { result ≡ refusal_of (recount_tests (plan people slots starts.now ends.now) avail.now
        units begins.now owners.now (derived sets.now minutes.now totals.now)) }
{
    let unknown = first_unknown(people, slots, owners);
    if unknown < slots {
        return refusal_in(1, unknown, 0);
    }
    let unavailable = first_unavailable(slots, avail, owners);
    if unavailable < slots {
        return refusal_in(2, unavailable, 0);
    }
    let uneven = first_uneven(slots, units, begins, owners);
    if uneven < units {
        return refusal_in(3, uneven, 0);
    }
    derived_refusal(people, slots, starts, ends, owners, sets, minutes, totals)
}

// What the recount refuses, with part and place: 1, 2, 9 or 10. `counts` and `room` are the caller's own tests of rules 1 and 2.
pub fn recounted(
    counts: bool,
    room: bool,
    people: usize,
    slots: usize,
    units: usize,
    starts: &[u32],
    ends: &[u32],
    avail: &[u64],
    begins: &[u16],
    owners: &[u8],
    sets: &[u64],
    minutes: &[u64],
    totals: &[u64],
) -> Refusal
    ensures { result ≡ refusal_of (recount_row counts room (plan people slots starts.now ends.now) avail.now units begins.now owners.now
        (derived sets.now minutes.now totals.now)) }
{
    let f = lent_refusal(
        counts, room, people, slots, starts, ends, avail, owners, sets, minutes, totals,
    );
    let g = units::check_units(f, slots, units, begins);
    if g.number == 0 {
        return recount_refusal(
            people, slots, units, starts, ends, avail, begins, owners, sets, minutes, totals,
        );
    }
    g
}

// The recount without units, as a single assign asks it. Number 0 where it passes; refusals 1, 2, 9, 10 with part and place.
pub fn recount_slots(
    people: usize,
    slots: usize,
    starts: &[u32],
    ends: &[u32],
    avail: &[u64],
    owners: &[u8],
    sets: &[u64],
    minutes: &[u64],
    totals: &[u64],
) -> Refusal
    ensures { result ≡ refusal_of (recount_slots_row (plan people slots starts.now ends.now) avail.now
        owners.now (derived sets.now minutes.now totals.now)) }
{
    let f = lent_refusal(
        true, true, people, slots, starts, ends, avail, owners, sets, minutes, totals,
    );
    if f.number == 0 {
        let none = [0u16; 1];
        return recount_refusal(
            people, slots, 0, starts, ends, avail, &none, owners, sets, minutes, totals,
        );
    }
    f
}

// The recount with units. Number 0 where it passes; refusals 1, 2, 9, 10 with part and place.
pub fn recount(
    people: usize,
    slots: usize,
    units: usize,
    starts: &[u32],
    ends: &[u32],
    avail: &[u64],
    begins: &[u16],
    owners: &[u8],
    sets: &[u64],
    minutes: &[u64],
    totals: &[u64],
) -> Refusal
    ensures { result ≡ refusal_of (recount_row true (nat_le units (length begins.now)) (plan people slots starts.now
        ends.now) avail.now units begins.now owners.now (derived sets.now
        minutes.now totals.now)) }
{
    recounted(
        true,
        units <= begins.len(),
        people,
        slots,
        units,
        starts,
        ends,
        avail,
        begins,
        owners,
        sets,
        minutes,
        totals,
    )
}
