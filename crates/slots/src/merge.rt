// Merged ranges handed out as columns.
ghost use Rattle.std.specs.Prelude.{◌≡◌, ℕ, ◌≤◌, ◌<◌, length, get_or};
ghost use Rattle.paper.specs.Rows.{refusal_of};
ghost use Rattle.slots.specs.Ranges.{ranges};
ghost use Rattle.slots.specs.Merged.{columns, merged_row, merged_ranges, MergedEnd};
ghost use Rattle.slots.specs.Inside.{person_of, TakenApart};

use crate::ranges;
use paper::Refusal;

// What is wrong with what merging takes: 1, 2 or 4.
fn merged_refusal(
    people: usize,
    count: usize,
    persons: &[u16],
    opens: &[u32],
    shuts: &[u32],
    whose: &[u16],
    froms: &[u32],
    tos: &[u32],
) -> Refusal
    ensures { result ≡ refusal_of (merged_row people (ranges count persons.now opens.now shuts.now)
        (columns whose.now froms.now tos.now)) }
{
    let f = paper::check_people(paper::accepted(), people);
    let f = ranges::check_range_count(f, count);
    let f = ranges::check_range_room(f, count, persons, opens, shuts);
    let f = ranges::check_range_room(f, count, whose, froms, tos);
    ranges::check_ranges(f, people, count, persons, opens, shuts)
}

// The first n numbers, taken apart into the columns.
fn take_apart(keys: &[u64], n: usize, whose: &mut [u16], froms: &mut [u32], tos: &mut [u32])
    requires n_bound { (n ≤ 1024) × (n ≤ length keys.now) × ((k : ℕ) → k < n → person_of (get_or keys.now k 0) < 32) }
    requires n_in_bounds { (n ≤ length whose.old) × (n ≤ length froms.old) × (n ≤ length tos.old) }
    ensures { TakenApart n keys.now whose.old froms.old tos.old
        whose.new froms.new tos.new }
{
    for i in 0..n {
        let key = keys[i];
        whose[i] = ranges::person_of(key) as u16;
        froms[i] = ranges::start_of(key) as u32;
        tos[i] = ranges::end_of(key) as u32;
    }
}

// Each person's ranges sorted, empty ones dropped, touching or overlapping ones merged; in person order, with their number.
// Refusals 1, 2, 4.
pub fn merged_ranges(
    people: usize,
    count: usize,
    persons: &[u16],
    opens: &[u32],
    shuts: &[u32],
    whose: &mut [u16],
    froms: &mut [u32],
    tos: &mut [u32],
) -> Result<usize, u8>
    ensures { MergedEnd
        (merged_ranges people (ranges count persons.now opens.now shuts.now)
        (columns whose.old froms.old tos.old))
        result whose.new froms.new tos.new }
{
    let number = merged_refusal(people, count, persons, opens, shuts, whose, froms, tos).number;
    if number == 0 {
        let list = ranges::merged_keys(count, persons, opens, shuts);
        let keys = list.keys;
        let n = list.count;
        take_apart(&keys, n, whose, froms, tos);
        return Ok(n);
    }
    Err(number)
}
