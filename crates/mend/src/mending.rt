// A rota mended: worked out beside what was found, listed, and then written where that stood.
ghost use Rattle.std.specs.Prelude.{◌≡◌, ◌≤◌, length};
ghost use Rattle.paper.specs.Limits.{number_of};
ghost use Rattle.paper.specs.Rows.{refusal_of};
ghost use Rattle.owners.specs.Derived.{plan, derived};
ghost use Rattle.mend.specs.Repairs.{rota};
ghost use Rattle.mend.specs.Answers.{found_row, mending, Ended};
ghost use Rattle.mend.specs.Inside.{copied, taken_over, Mendable, NewRoom, WorkedOut, write_out};

use crate::clearing::{clear_barred, clear_uneven};
use crate::listing::{count_repairs, list_repairs};
use paper::Refusal;

// Works out what a rota is mended to, in columns of its own: its owners, and from them sets, minutes and totals.
fn work_out(
    people: usize,
    slots: usize,
    units: usize,
    starts: &[u32],
    ends: &[u32],
    avail: &[u64],
    begins: &[u16],
    owners: &[u8],
    sets: &[u64],
    new_owners: &mut [u8],
    new_sets: &mut [u64],
    new_minutes: &mut [u64],
    new_totals: &mut [u64],
)
    requires mendable { Mendable (plan people slots starts.now ends.now) avail.now units begins.now owners.now sets.now }
    requires new_room { NewRoom people slots new_owners.old new_sets.old new_minutes.old new_totals.old }
    ensures { WorkedOut (plan people slots starts.now ends.now) avail.now units begins.now owners.now sets.now
        new_owners.new new_sets.new new_minutes.new new_totals.new }
{
    new_owners[..slots].copy_from_slice(&owners[..slots]);
    clear_barred(people, slots, avail, new_owners);
    clear_uneven(slots, units, begins, new_owners);
    let words = paper::SET_WORDS * people;
    new_sets[..words].copy_from_slice(&sets[..words]);
    owners::from_slots(
        people,
        slots,
        starts,
        ends,
        avail,
        new_owners,
        new_sets,
        new_minutes,
        new_totals,
    );
}

// Writes what is new where what was found stood.
fn take_over(
    people: usize,
    slots: usize,
    new_owners: &[u8],
    new_sets: &[u64],
    new_minutes: &[u64],
    new_totals: &[u64],
    owners: &mut [u8],
    sets: &mut [u64],
    minutes: &mut [u64],
    totals: &mut [u64],
)
    requires people_bound { people ≤ 32 }
    requires new_room { NewRoom people slots new_owners.now new_sets.now new_minutes.now new_totals.now }
    requires new_room_2 { NewRoom people slots owners.old sets.old minutes.old totals.old }
    ensures { rota owners.new (derived sets.new minutes.new totals.new) ≡ taken_over
        people slots
        (rota owners.old (derived sets.old minutes.old totals.old)) (rota new_owners.now
        (derived new_sets.now new_minutes.now new_totals.now)) }
{
    let words = paper::SET_WORDS * people;
    owners[..slots].copy_from_slice(&new_owners[..slots]);
    sets[..words].copy_from_slice(&new_sets[..words]);
    minutes[..people].copy_from_slice(&new_minutes[..people]);
    totals[..2].copy_from_slice(&new_totals[..2]);
}

// Writes what is new where what was found stood, and lists what differs; 2 where the list has no room, and then nothing is written.
fn write_out(
    people: usize,
    slots: usize,
    frozen: &[u64],
    new_owners: &[u8],
    new_sets: &[u64],
    new_minutes: &[u64],
    new_totals: &[u64],
    owners: &mut [u8],
    sets: &mut [u64],
    minutes: &mut [u64],
    totals: &mut [u64],
    list: &mut [u64],
) -> Result<usize, u8>
    requires people_bound { (people ≤ 32) × (slots ≤ 1024) }
    requires new_room { NewRoom people slots new_owners.now new_sets.now new_minutes.now new_totals.now }
    requires new_room_2 { NewRoom people slots owners.old sets.old minutes.old totals.old }
    ensures { Ended (write_out people slots frozen.now (rota owners.old (derived sets.old minutes.old totals.old))
        (rota new_owners.now (derived new_sets.now new_minutes.now new_totals.now)) list.old) result
        (rota owners.new (derived sets.new minutes.new totals.new)) list.new }
{
    let n = count_repairs(
        people,
        slots,
        owners,
        sets,
        minutes,
        totals,
        new_owners,
        new_sets,
        new_minutes,
        new_totals,
    );
    if 5 * n <= list.len() {
        list_repairs(
            people,
            slots,
            frozen,
            owners,
            sets,
            minutes,
            totals,
            new_owners,
            new_sets,
            new_minutes,
            new_totals,
            list,
        );
        take_over(
            people,
            slots,
            new_owners,
            new_sets,
            new_minutes,
            new_totals,
            owners,
            sets,
            minutes,
            totals,
        );
        return Ok(n);
    }
    Err(2)
}

// Mends a rota that nothing stands against but the list's room: 2 where the repairs don't fit it, and then nothing is written.
fn mend_found(
    people: usize,
    slots: usize,
    units: usize,
    starts: &[u32],
    ends: &[u32],
    avail: &[u64],
    begins: &[u16],
    frozen: &[u64],
    owners: &mut [u8],
    sets: &mut [u64],
    minutes: &mut [u64],
    totals: &mut [u64],
    list: &mut [u64],
) -> Result<usize, u8>
    requires { number_of (found_row (plan people slots starts.now ends.now) avail.now units begins.now frozen.now (rota owners.old
        (derived sets.old minutes.old totals.old))) ≡ 0 }
    ensures { Ended (mending (plan people slots starts.now ends.now) avail.now units begins.now frozen.now
        (rota owners.old (derived sets.old minutes.old totals.old)) list.old) result
        (rota owners.new (derived sets.new minutes.new totals.new)) list.new }
{
    let mut new_owners = [0u8; 1024];
    let mut new_sets = [0u64; 512];
    let mut new_minutes = [0u64; 32];
    let mut new_totals = [0u64; 2];
    work_out(
        people,
        slots,
        units,
        starts,
        ends,
        avail,
        begins,
        owners,
        sets,
        &mut new_owners,
        &mut new_sets,
        &mut new_minutes,
        &mut new_totals,
    );
    write_out(
        people,
        slots,
        frozen,
        &new_owners,
        &new_sets,
        &new_minutes,
        &new_totals,
        owners,
        sets,
        minutes,
        totals,
        list,
    )
}

// What stands against mending: 1, 2 or 9.
fn found_refusal(
    people: usize,
    slots: usize,
    units: usize,
    starts: &[u32],
    ends: &[u32],
    avail: &[u64],
    begins: &[u16],
    frozen: &[u64],
    owners: &[u8],
    sets: &[u64],
    minutes: &[u64],
    totals: &[u64],
) -> Refusal
    ensures { result ≡ refusal_of (found_row (plan people slots starts.now ends.now) avail.now units begins.now frozen.now
        (rota owners.now (derived sets.now minutes.now totals.now))) }
{
    let f = paper::check_people(paper::accepted(), people);
    let f = paper::check_slots(f, slots);
    let f = slots::check_room(f, slots, starts, ends);
    let f = paper::check_words(f, people, avail);
    let f = paper::check(f, units <= begins.len(), 2);
    let f = paper::check(f, paper::SET_WORDS <= frozen.len(), 2);
    let f = paper::check(f, slots <= owners.len(), 2);
    let f = paper::check_words(f, people, sets);
    let f = paper::check(f, people <= minutes.len(), 2);
    let f = paper::check(f, 2 <= totals.len(), 2);
    let f = slots::check_order(f, slots, starts, ends, 9);
    units::check_units(f, slots, units, begins)
}

// Mends a damaged rota: an owner who is unknown or not available is cleared, then a unit that has not one owner is cleared whole, then
// sets, minutes and totals are worked out anew. Answers how many repairs that took; they are listed, five numbers each. Refusals 1, 2, 9,
// and 2 where the list has no room for them.
pub fn mend(
    people: usize,
    slots: usize,
    units: usize,
    starts: &[u32],
    ends: &[u32],
    avail: &[u64],
    begins: &[u16],
    frozen: &[u64],
    owners: &mut [u8],
    sets: &mut [u64],
    minutes: &mut [u64],
    totals: &mut [u64],
    list: &mut [u64],
) -> Result<usize, u8>
    ensures { Ended (mending (plan people slots starts.now ends.now) avail.now units begins.now frozen.now
        (rota owners.old (derived sets.old minutes.old totals.old)) list.old) result
        (rota owners.new (derived sets.new minutes.new totals.new)) list.new }
{
    let n = found_refusal(
        people, slots, units, starts, ends, avail, begins, frozen, owners, sets, minutes, totals,
    )
    .number;
    if n == 0 {
        return mend_found(
            people, slots, units, starts, ends, avail, begins, frozen, owners, sets, minutes,
            totals, list,
        );
    }
    Err(n)
}
