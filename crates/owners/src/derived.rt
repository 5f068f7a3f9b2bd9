// What is derived from owners, everybody's set of slots and minutes and the totals of what nobody owns: handed over a stretch at a time,
// and worked out afresh.
ghost use Rattle.std.specs.Prelude.{◌≡◌, ◌+◌, ◌-◌, ◌*◌, ◌<◌, ◌≤◌, length, set, slice_index, slice_set};
ghost use Rattle.paper.specs.Count.{fill, over};
ghost use Rattle.owners.specs.Derived.{plan, derived, afresh, taken, given, stretch_minutes, wrapped, carried, sets_from, nobodies};
ghost use Rattle.owners.specs.Inside.{PlanSound, OneOwner, Makes};

use crate::scan::owner_at;
use slotset::row::put_stretch;

// n less at place i of a column, at least 0; a place that isn't lent has none.
fn less_at(column: &mut [u64], i: usize, n: u64)
    ensures { column.new ≡ slice_set column.old i (slice_index column.old i - n) }
{
    if i < column.len() {
        column[i] = column[i].saturating_sub(n);
    }
}

// n more at place i of a column.
fn more_at(column: &mut [u64], i: usize, n: u64)
    ensures { column.new ≡ slice_set column.old i (wrapped (slice_index column.old i + n)) }
{
    if i < column.len() {
        column[i] = column[i].wrapping_add(n);
    }
}

// How many slots there are from a up to e.
fn slots_in(a: usize, e: usize) -> u64
    ensures { result ≡ e - a }
{
    e.saturating_sub(a) as u64
}

// The minutes of slots a up to e, all of them lent: none is tested by itself.
fn lent_minutes(starts: &[u32], ends: &[u32], a: usize, e: usize) -> u64
    requires { (e ≤ length starts.now) × (e ≤ length ends.now) }
    ensures { result ≡ wrapped (stretch_minutes starts.now ends.now a e) }
{
    let mut total: u64 = 0;
    for k in a..e {
        total = total.wrapping_add(u64::from(ends[k].saturating_sub(starts[k])));
    }
    total
}

// The minutes of slots a up to e; those that aren't lent have none.
fn any_minutes(starts: &[u32], ends: &[u32], a: usize, e: usize) -> u64
    ensures { result ≡ wrapped (stretch_minutes starts.now ends.now a e) }
{
    let mut total: u64 = 0;
    for k in a..e {
        total = total.wrapping_add(u64::from(slots::minutes_at(starts, ends, k)));
    }
    total
}

// The same, by whether they are all lent.
fn stretch_minutes(starts: &[u32], ends: &[u32], a: usize, e: usize) -> u64
    ensures { result ≡ wrapped (stretch_minutes starts.now ends.now a e) }
{
    if e <= starts.len() && e <= ends.len() {
        lent_minutes(starts, ends, a, e)
    } else {
        any_minutes(starts, ends, a, e)
    }
}

// Slots a up to e get an owner; those that aren't lent get none.
pub fn fill_owners(owners: &mut [u8], a: usize, e: usize, owner: u8)
    ensures { owners.new ≡ fill owner a (e - a) owners.old }
{
    for k in a..e.min(owners.len()) {
        owners[k] = owner;
    }
}

// Slots a up to e, of n minutes, are taken from an owner: out of their set and minutes, or out of the totals where it is nobody.
fn take(
    people: usize,
    slots: usize,
    sets: &mut [u64],
    minutes: &mut [u64],
    totals: &mut [u64],
    a: usize,
    e: usize,
    n: u64,
    owner: u8,
)
    ensures { derived sets.new minutes.new totals.new ≡ taken people slots a e n owner (derived
        sets.old minutes.old totals.old) }
{
    if owner == paper::NOBODY {
        less_at(totals, 0, n);
        less_at(totals, 1, slots_in(a, e));
        return;
    }
    put_stretch(people, slots, sets, owner as usize, a, e, false);
    less_at(minutes, owner as usize, n);
}

// Slots a up to e, of n minutes, are given to an owner: into their set and minutes, or into the totals where it is nobody.
fn give(
    people: usize,
    slots: usize,
    sets: &mut [u64],
    minutes: &mut [u64],
    totals: &mut [u64],
    a: usize,
    e: usize,
    n: u64,
    owner: u8,
)
    ensures { derived sets.new minutes.new totals.new ≡ given people slots a e n owner (derived
        sets.old minutes.old totals.old) }
{
    if owner == paper::NOBODY {
        more_at(totals, 0, n);
        more_at(totals, 1, slots_in(a, e));
        return;
    }
    put_stretch(people, slots, sets, owner as usize, a, e, true);
    more_at(minutes, owner as usize, n);
}

// Slots a up to e go from the owner of slot a to another. On a rota in step where they have one owner, `proofs/Steps` says that what is
// derived is then as worked out afresh.
pub fn hand_over(
    people: usize,
    slots: usize,
    starts: &[u32],
    ends: &[u32],
    owners: &mut [u8],
    sets: &mut [u64],
    minutes: &mut [u64],
    totals: &mut [u64],
    a: usize,
    e: usize,
    to: u8,
)
    ensures { (owners.new ≡ fill to a (e - a) owners.old)
        × (derived sets.new minutes.new totals.new ≡ carried (plan people slots starts.now ends.now) a e (slice_index owners.old a) to
        (derived sets.old minutes.old totals.old)) }
{
    let old = owner_at(owners, a);
    let n = stretch_minutes(starts, ends, a, e);
    take(people, slots, sets, minutes, totals, a, e, n, old);
    give(people, slots, sets, minutes, totals, a, e, n, to);
    fill_owners(owners, a, e, to);
}

// One past the last slot of the stretch that starts at slot i and has one owner.
fn stretch_end(slots: usize, owners: &[u8], i: usize) -> usize
    requires { (i < slots) × (slots ≤ length owners.now) }
    ensures { OneOwner owners.now slots i result }
{
    let owner = owners[i];
    for e in i + 1..slots {
        if owners[e] != owner {
            return e;
        }
    }
    slots
}

// Everyone's set loses its slots below the count.
fn clear_sets(people: usize, slots: usize, sets: &mut [u64])
    requires { (1 ≤ people) × (people ≤ 32) × (slots ≤ 1024) × (16 * people ≤ length sets.old) }
    ensures { sets.new ≡ sets_from people slots (nobodies slots) sets.old }
{
    for p in 0..people {
        slotset::row::clear(people, slots, sets, p);
    }
}

// The first n entries of a column become 0.
fn clear_first(n: usize, column: &mut [u64])
    requires { n ≤ length column.old }
    ensures { column.new ≡ over (λ _. 0) n column.old }
{
    column[..n].fill(0);
}

// Sets, minutes and totals worked out afresh from owners, a stretch of one owner at a time.
pub(crate) fn rebuild(
    people: usize,
    slots: usize,
    starts: &[u32],
    ends: &[u32],
    owners: &[u8],
    sets: &mut [u64],
    minutes: &mut [u64],
    totals: &mut [u64],
)
    requires plan_sound { PlanSound (plan people slots starts.now ends.now) }
    requires makes { Makes (plan people slots starts.now ends.now) owners.now (derived sets.old minutes.old totals.old) }
    ensures { derived sets.new minutes.new totals.new ≡ afresh (plan people slots starts.now ends.now) owners.now
        (derived sets.old minutes.old totals.old) }
{
    clear_sets(people, slots, sets);
    clear_first(people, minutes);
    clear_first(2, totals);
    let mut i: usize = 0;
    // a while: each step jumps to the end of what was found, so no range is walked
    while i < slots {
        let e = stretch_end(slots, owners, i);
        let n = stretch_minutes(starts, ends, i, e);
        give(people, slots, sets, minutes, totals, i, e, n, owners[i]);
        i = e;
    }
}
