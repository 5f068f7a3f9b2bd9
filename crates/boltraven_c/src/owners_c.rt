// A rota made, emptied, read and recounted.
ghost use Rattle.std.specs.Prelude.{◌≡◌, true, leb, length, []};
ghost use Rattle.paper.specs.Rows.{refusal_of, answer_refusal};
ghost use Rattle.owners.specs.Derived.{plan, derived};
ghost use Rattle.owners.specs.Entries.{recount_row, recount_slots_row, placeless, Ended, from_slots, emptied, owner_is, minutes_is, unassigned_is};
ghost use Rattle.owners.specs.Entries.{uncovered_is};
ghost use Rattle.boltraven_c.specs.Numbers.{refusal_number, plain_number, minutes_written};

use crate::answers::{plain_number, put_minutes, refusal_number};

// 0 where the rota passes the recount, as a play asks it; else the refusal with its part and places.
#[unsafe(no_mangle)]
pub extern "C" fn boltraven_recount(
    people: usize,
    slots: usize,
    units: usize,
    starts: &[u32],
    ends: &[u32],
    avail: &[u64],
    unit_starts: &[u16],
    owners: &[u8],
    sets: &[u64],
    minutes: &[u64],
    totals: &[u64],
) -> u64
    ensures { result ≡ refusal_number (refusal_of (recount_row true (leb units (length unit_starts.now))
        (plan people slots starts.now
        ends.now) avail.now units unit_starts.now owners.now (derived sets.now
        minutes.now totals.now))) }
{
    refusal_number(owners::recount(
        people,
        slots,
        units,
        starts,
        ends,
        avail,
        unit_starts,
        owners,
        sets,
        minutes,
        totals,
    ))
}

// The same without units, as a single assign asks it.
#[unsafe(no_mangle)]
pub extern "C" fn boltraven_recount_slots(
    people: usize,
    slots: usize,
    starts: &[u32],
    ends: &[u32],
    avail: &[u64],
    owners: &[u8],
    sets: &[u64],
    minutes: &[u64],
    totals: &[u64],
) -> u64
    ensures { result ≡ refusal_number (refusal_of (recount_slots_row (plan people slots starts.now ends.now)
        avail.now owners.now (derived sets.now minutes.now totals.now))) }
{
    refusal_number(owners::recount_slots(
        people, slots, starts, ends, avail, owners, sets, minutes, totals,
    ))
}

// Sets, minutes and totals from owners.
#[unsafe(no_mangle)]
pub extern "C" fn boltraven_from_slots(
    people: usize,
    slots: usize,
    starts: &[u32],
    ends: &[u32],
    avail: &[u64],
    owners: &[u8],
    sets: &mut [u64],
    minutes: &mut [u64],
    totals: &mut [u64],
) -> u8
    ensures { Ended
        (from_slots (plan people slots starts.now ends.now) avail.now owners.now
        (derived sets.old minutes.old totals.old))
        (placeless result) owners.now (derived sets.new minutes.new totals.new) [] }
{
    owners::from_slots(
        people, slots, starts, ends, avail, owners, sets, minutes, totals,
    )
}

// An empty rota: nobody owns a slot, sets and minutes are cleared, and all is uncovered.
#[unsafe(no_mangle)]
pub extern "C" fn boltraven_empty(
    people: usize,
    slots: usize,
    starts: &[u32],
    ends: &[u32],
    owners: &mut [u8],
    sets: &mut [u64],
    minutes: &mut [u64],
    totals: &mut [u64],
) -> u8
    ensures { Ended
        (emptied (plan people slots starts.now ends.now) owners.old
        (derived sets.old minutes.old totals.old))
        (placeless result) owners.new (derived sets.new minutes.new totals.new) [] }
{
    owners::empty(people, slots, starts, ends, owners, sets, minutes, totals)
}

// The owner of a slot: a person's number, or 255 for nobody.
#[unsafe(no_mangle)]
pub extern "C" fn boltraven_owner_of_slot(
    people: usize,
    slots: usize,
    owners: &[u8],
    slot: usize,
) -> u64
    ensures { result ≡ plain_number (owner_is people slots owners.now slot) }
{
    plain_number(owners::owner_of_slot(people, slots, owners, slot))
}

// A person's minutes.
#[unsafe(no_mangle)]
pub extern "C" fn boltraven_minutes_of(
    people: usize,
    minutes: &[u64],
    person: usize,
    out: &mut u64,
) -> u8
    ensures value { result ≡ answer_refusal (minutes_is people minutes.now person) }
    ensures out_after { out.new ≡ minutes_written out.old (minutes_is people minutes.now person) }
{
    let worked = owners::minutes_of(people, minutes, person);
    put_minutes(worked, out)
}

// The slots that nobody owns.
#[unsafe(no_mangle)]
pub extern "C" fn boltraven_unassigned_count(people: usize, slots: usize, owners: &[u8]) -> u64
    ensures { result ≡ plain_number (unassigned_is people slots owners.now) }
{
    plain_number(owners::unassigned_count(people, slots, owners))
}

// The minutes of the slots that nobody owns.
#[unsafe(no_mangle)]
pub extern "C" fn boltraven_uncovered_minutes(
    people: usize,
    slots: usize,
    starts: &[u32],
    ends: &[u32],
    owners: &[u8],
    out: &mut u64,
) -> u8
    ensures value { result ≡ answer_refusal (uncovered_is (plan people slots starts.now ends.now)
        owners.now) }
    ensures out_after { out.new ≡ minutes_written out.old
        (uncovered_is (plan people slots starts.now ends.now) owners.now) }
{
    let uncovered = owners::uncovered_minutes(people, slots, starts, ends, owners);
    put_minutes(uncovered, out)
}
