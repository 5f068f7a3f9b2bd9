// What stays and what is new, column by column: the rest moves to the front, and the new entries come behind it.
ghost use Rattle.std.specs.Prelude.{◌≡◌, true, cond, ℕ, ◌+◌, ◌-◌, ◌*◌, ◌≤◌, ◌<◌, eqb, ltb, length, get_or};
ghost use Rattle.paper.specs.Limits.{people_ok};
ghost use Rattle.paper.specs.Count.{over};
ghost use Rattle.slotset.specs.Slots.{slot, put_slots};
ghost use Rattle.slots.specs.Availability.{rows};
ghost use Rattle.retire.specs.Rolled.{entry, rolled, rolled_column, begin_then};

use slotset::{bit, row};

// A column of starts or ends.
pub(crate) fn roll_minutes(
    gone: usize,
    kept: usize,
    count: usize,
    fresh: &[u32],
    column: &mut [u32],
)
    requires { (gone + kept ≤ length column.old) × (count ≤ length column.old) × (count ≤ kept + length fresh.now) }
    ensures { column.new ≡ rolled_column gone kept count (entry fresh.now) column.old }
{
    let rest = kept.min(count);
    column.copy_within(gone..gone + rest, 0);
    column[rest..count].copy_from_slice(&fresh[..count - rest]);
}

// A unit's start, counted from the first slot that is left.
fn start_less(start: u16, gone: usize) -> u16
    ensures { result ≡ start - gone }
{
    usize::from(start).saturating_sub(gone) as u16
}

// A new unit's start, behind the slots that are left.
fn start_more(start: u16, kept: usize) -> u16
    requires { (start ≤ 1024) × (kept ≤ 1024) }
    ensures { result ≡ kept + start }
{
    (kept + usize::from(start)) as u16
}

// Unit starts: those left count `less`, the slots that went; new ones `more`, the slots that are left.
pub(crate) fn roll_begins(
    gone: usize,
    kept: usize,
    count: usize,
    less: usize,
    more: usize,
    fresh: &[u16],
    begins: &mut [u16],
)
    requires kept_in_bounds { (gone + kept ≤ length begins.old) × (count ≤ length begins.old) × (count ≤ kept + length fresh.now) }
    requires more_bound { (more ≤ 1024) × ((u : ℕ) → kept + u < count → get_or fresh.now u 0 ≤ 1024) }
    ensures { begins.new
        ≡ over (begin_then gone kept less more begins.old fresh.now) count begins.old }
{
    for k in 0..count {
        if k < kept {
            begins[k] = start_less(begins[gone + k], less);
        } else {
            begins[k] = start_more(fresh[k - kept], more);
        }
    }
}

// Whether a person's set holds slot k then: as it stands further on, or as it is in the new words.
fn holds_then(gone: usize, kept: usize, fresh: &[u64], words: &[u64], person: u8, k: usize) -> bool
    requires { gone + kept ≤ 1024 }
    ensures { result ≡ eqb (rolled gone kept (slot words.now (16 * person)) (slot fresh.now (16 * person)) k) 1 }
{
    if k < kept {
        bit::holds(words, person, gone + k)
    } else {
        bit::holds(fresh, person, k - kept)
    }
}

// One person's set, slot by slot: each is read before it is written over.
pub(crate) fn roll_row(
    people: usize,
    count: usize,
    gone: usize,
    kept: usize,
    fresh: &[u64],
    words: &mut [u64],
    person: usize,
)
    requires people_value { (people_ok people ≡ true) × (16 * people ≤ length words.old) × (person < people) }
    requires count_bound { (count ≤ 1024) × (gone + kept ≤ 1024) }
    ensures { words.new ≡ put_slots (rolled gone kept (slot words.old (16 * person)) (slot fresh.now
        (16 * person))) (16 * person) 0 count words.old }
{
    for k in 0..count {
        let want = holds_then(gone, kept, fresh, words, person as u8, k);
        row::put_stretch(people, count, words, person, k, k + 1, want);
    }
}

// Everybody's sets.
pub(crate) fn roll_rows(
    people: usize,
    count: usize,
    gone: usize,
    kept: usize,
    fresh: &[u64],
    words: &mut [u64],
)
    requires people_value { (people_ok people ≡ true) × (16 * people ≤ length words.old) }
    requires count_bound { (count ≤ 1024) × (gone + kept ≤ 1024) }
    ensures { words.new ≡ rows (λ p. rolled gone kept (slot words.old (16 * p)) (slot fresh.now
        (16 * p))) count people words.old }
{
    for person in 0..people {
        roll_row(people, count, gone, kept, fresh, words, person);
    }
}
