// Slots, availability and freezing. Minutes are written through an address, beside the number of the refusal, or 0.
ghost use Rattle.std.specs.Prelude.{◌≡◌};
ghost use Rattle.slots.specs.Lent.{demand_is, slot_minutes_is};
ghost use Rattle.paper.specs.Rows.{answer_refusal};
ghost use Rattle.boltraven_c.specs.Numbers.{minutes_written, plain_number, yes_no_number};
ghost use Rattle.slots.specs.Availability.{is_available, availability_row, availability_of};
ghost use Rattle.slots.specs.Freeze.{freeze_of};
ghost use Rattle.paper.specs.Limits.{number_of};
ghost use Rattle.slots.specs.Ranges.{ranges};
ghost use Rattle.slots.specs.Merged.{columns, merged_ranges};
ghost use Rattle.slots.specs.Atomic.{base, atomise_of};

use crate::answers::{plain_number, put_minutes, yes_no_number};

// The minutes of all slots.
#[unsafe(no_mangle)]
pub extern "C" fn boltraven_demand(slots: usize, starts: &[u32], ends: &[u32], out: &mut u64) -> u8
    ensures value { result ≡ answer_refusal (demand_is slots starts.now ends.now) }
    ensures out_after { out.new
        ≡ minutes_written out.old (demand_is slots starts.now ends.now) }
{
    let minutes = slots::demand(slots, starts, ends);
    put_minutes(minutes, out)
}

// The minutes of one slot.
#[unsafe(no_mangle)]
pub extern "C" fn boltraven_slot_minutes(
    slots: usize,
    starts: &[u32],
    ends: &[u32],
    slot: usize,
    out: &mut u64,
) -> u8
    ensures value { result ≡ answer_refusal (slot_minutes_is slots starts.now ends.now slot) }
    ensures out_after { out.new
        ≡ minutes_written out.old (slot_minutes_is slots starts.now ends.now slot) }
{
    let minutes = slots::slot_minutes(slots, starts, ends, slot);
    put_minutes(minutes, out)
}

// Marks each slot that ends by the instant; how many do.
#[unsafe(no_mangle)]
pub extern "C" fn boltraven_freeze_before(
    slots: usize,
    starts: &[u32],
    ends: &[u32],
    frozen: &mut [u64],
    instant: u32,
) -> u64
    ensures value { result ≡ plain_number
        (freeze_of slots starts.now ends.now frozen.old instant).answer }
    ensures frozen_after { frozen.new
        ≡ (freeze_of slots starts.now ends.now frozen.old instant).flags }
{
    plain_number(slots::freeze_before(slots, starts, ends, frozen, instant))
}

// Whether a person is available for a slot: 1 or 0.
#[unsafe(no_mangle)]
pub extern "C" fn boltraven_is_available(
    people: usize,
    slots: usize,
    avail: &[u64],
    person: usize,
    slot: usize,
) -> u64
    ensures { result ≡ yes_no_number (is_available people slots avail.now person slot) }
{
    yes_no_number(slots::is_available(people, slots, avail, person, slot))
}

// Each person's ranges, sorted and merged, in three columns, and how many.
#[unsafe(no_mangle)]
pub extern "C" fn boltraven_merged_ranges(
    people: usize,
    count: usize,
    persons: &[u16],
    opens: &[u32],
    shuts: &[u32],
    whose: &mut [u16],
    froms: &mut [u32],
    tos: &mut [u32],
) -> u64
    ensures value { result ≡ plain_number
        (merged_ranges people (ranges count persons.now opens.now shuts.now)
        (columns whose.old froms.old tos.old)).answer }
    ensures whose_after { whose.new
        ≡ (merged_ranges people (ranges count persons.now opens.now shuts.now)
        (columns whose.old froms.old tos.old)).persons }
    ensures froms_after { froms.new
        ≡ (merged_ranges people (ranges count persons.now opens.now shuts.now)
        (columns whose.old froms.old tos.old)).starts }
    ensures tos_after { tos.new
        ≡ (merged_ranges people (ranges count persons.now opens.now shuts.now)
        (columns whose.old froms.old tos.old)).ends }
{
    plain_number(slots::merged_ranges(people, count, persons, opens, shuts, whose, froms, tos))
}

// The atomic slots, in two columns, and how many.
#[unsafe(no_mangle)]
pub extern "C" fn boltraven_atomise(
    people: usize,
    slots: usize,
    count: usize,
    starts: &[u32],
    ends: &[u32],
    persons: &[u16],
    opens: &[u32],
    shuts: &[u32],
    froms: &mut [u32],
    tos: &mut [u32],
) -> u64
    ensures value { result ≡ plain_number
        (atomise_of (base slots starts.now ends.now people
        (ranges count persons.now opens.now shuts.now) froms.old tos.old)
        ).answer }
    ensures froms_after { froms.new
        ≡ (atomise_of (base slots starts.now ends.now people
        (ranges count persons.now opens.now shuts.now) froms.old tos.old)).starts }
    ensures tos_after { tos.new
        ≡ (atomise_of (base slots starts.now ends.now people
        (ranges count persons.now opens.now shuts.now) froms.old tos.old)).ends }
{
    plain_number(slots::atomise(
        people, slots, count, starts, ends, persons, opens, shuts, froms, tos,
    ))
}

// Who is available for which of the lent slots, as a row of words a person.
#[unsafe(no_mangle)]
pub extern "C" fn boltraven_availability(
    people: usize,
    slots: usize,
    count: usize,
    starts: &[u32],
    ends: &[u32],
    persons: &[u16],
    opens: &[u32],
    shuts: &[u32],
    words: &mut [u64],
) -> u8
    ensures value { result ≡ number_of (availability_row people slots starts.now ends.now
        (ranges count persons.now opens.now shuts.now) words.old) }
    ensures words_after { words.new ≡ availability_of people slots starts.now ends.now
        (ranges count persons.now opens.now shuts.now) words.old }
{
    slots::availability(
        people, slots, count, starts, ends, persons, opens, shuts, words,
    )
}
