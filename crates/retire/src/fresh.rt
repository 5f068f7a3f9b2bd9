// What is new, by value: base slots split over their own ranges, their units, and who is available for them.
ghost use Rattle.std.specs.Prelude.{◌≡◌, true, ◌≤◌, length};
ghost use Rattle.slots.specs.Lent.{slots_ok};
ghost use Rattle.paper.specs.Limits.{ranges_most};
ghost use Rattle.slots.specs.Ranges.{ranges, range_room_ok, ranges_ok};
ghost use Rattle.slots.specs.Atomic.{is_cut, atom_starts, atom_ends};
ghost use Rattle.units.specs.Settings.{settings_ok};
ghost use Rattle.units.specs.Starts.{unit_starts};
ghost use Rattle.retire.specs.Inside.{NewRight, Written, FreshAre, WordsAre};

use units::Settings;

// New slots: the first `count` of both columns.
#[derive(Clone, Copy)]
pub struct FreshSlots {
    pub starts: [u32; 1024],
    pub ends: [u32; 1024],
    pub count: usize,
}

// Their units.
#[derive(Clone, Copy)]
pub struct FreshUnits {
    pub begins: [u16; 1024],
    pub count: usize,
}

// A column with nothing in it yet; what it holds is not told, so that no proof carries its entries.
fn blank<T: Copy, const N: usize>(zero: T) -> [T; N] {
    [zero; N]
}

// Whether ranges pass rule 4: merging them refuses nothing else.
pub(crate) fn ranges_ok(
    people: usize,
    count: usize,
    persons: &[u16],
    opens: &[u32],
    shuts: &[u32],
) -> bool
    requires { (people ≤ 32) × (1 ≤ people) × (count ≤ ranges_most)
        × (range_room_ok (ranges count persons.now opens.now shuts.now) ≡ true) }
    ensures { result ≡ ranges_ok people (ranges count persons.now opens.now shuts.now) }
{
    let mut whose: [u16; 1024] = blank(0);
    let mut starts: [u32; 1024] = blank(0);
    let mut ends: [u32; 1024] = blank(0);
    slots::merged_ranges(
        people,
        count,
        persons,
        opens,
        shuts,
        &mut whose,
        &mut starts,
        &mut ends,
    )
    .is_ok()
}

// The base slots split at every start and end of a merged range that lies strictly inside one; there may be none. None where they are more than 1,024.
pub(crate) fn fresh_slots(
    people: usize,
    base: usize,
    count: usize,
    froms: &[u32],
    tos: &[u32],
    persons: &[u16],
    opens: &[u32],
    shuts: &[u32],
) -> Option<FreshSlots>
    requires { NewRight people base froms.now tos.now (ranges count persons.now opens.now shuts.now) }
    ensures { FreshAre (atom_starts (is_cut people (ranges count persons.now opens.now shuts.now)) base froms.now tos.now)
        (atom_ends (is_cut people (ranges count persons.now opens.now shuts.now)) base froms.now tos.now) result }
{
    let mut starts: [u32; 1024] = blank(0);
    let mut ends: [u32; 1024] = blank(0);
    if base == 0 {
        return Some(FreshSlots {
            starts,
            ends,
            count: 0,
        });
    }
    let Ok(count) = slots::atomise(
        people,
        base,
        count,
        froms,
        tos,
        persons,
        opens,
        shuts,
        &mut starts,
        &mut ends,
    ) else {
        return None;
    };
    Some(FreshSlots {
        starts,
        ends,
        count,
    })
}

// Where the units of n new slots start, the first of these as slot 0.
pub(crate) fn fresh_units(n: usize, settings: Settings, starts: &[u32], ends: &[u32]) -> FreshUnits
    requires { (n ≤ 1024) × (slots_ok n starts.now ends.now ≡ true) × (settings_ok settings ≡ true) }
    ensures { Written (unit_starts settings n starts.now) result.begins result.count }
{
    let mut begins: [u16; 1024] = blank(0);
    let count = units::unit_starts(n, settings, starts, ends, &mut begins).unwrap_or(0);
    FreshUnits { begins, count }
}

// Who is available for n new slots, a set a person.
pub(crate) fn fresh_words(
    people: usize,
    n: usize,
    count: usize,
    starts: &[u32],
    ends: &[u32],
    persons: &[u16],
    opens: &[u32],
    shuts: &[u32],
) -> [u64; 512]
    requires { NewRight people n starts.now ends.now (ranges count persons.now opens.now shuts.now) }
    ensures { WordsAre people n (ranges count persons.now opens.now shuts.now) starts.now
        ends.now result }
{
    let mut words: [u64; 512] = blank(0);
    slots::availability(
        people, n, count, starts, ends, persons, opens, shuts, &mut words,
    );
    words
}
