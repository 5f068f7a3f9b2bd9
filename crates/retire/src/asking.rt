// What stands against retiring, test by test in the paper's order.
ghost use Rattle.std.specs.Prelude.{◌≡◌, true, ◌&&◌, ◌||◌, not, ℕ, ◌+◌, ◌-◌, ◌≤◌, ◌<◌, eqb, leb, length};
ghost use Rattle.paper.specs.Limits.{last_minute, ranges_most, test};
ghost use Rattle.paper.specs.Rows.{refusal_of, next};
ghost use Rattle.paper.specs.Count.{all};
ghost use Rattle.slots.specs.Ranges.{ranges, range_room_ok, ranges_ok};
ghost use Rattle.slots.specs.Atomic.{is_cut, atom_starts};
ghost use Rattle.owners.specs.Derived.{plan, derived};
ghost use Rattle.retire.specs.Rolled.{entry};
ghost use Rattle.retire.specs.Going.{prior_then, retired_then};
ghost use Rattle.retire.specs.New.{new};
ghost use Rattle.retire.specs.Outcome.{held, columns, asked_row, retire_row};
ghost use Rattle.retire.specs.Inside.{NewRight};

use crate::figures::{figures_ok, figures_then_ok};
use crate::fresh::{fresh_slots, ranges_ok};
use crate::going::{gone_units, start_from};
use paper::Refusal;
use units::Settings;

// Whether the columns of ranges have room for them (rule 2).
#[tactic(auto, unfolding(slots::specs::Ranges::range_room_ok))]
fn range_room_ok(count: usize, persons: &[u16], opens: &[u32], shuts: &[u32]) -> bool
    ensures { result ≡ range_room_ok (ranges count persons.now opens.now shuts.now) }
{
    count <= persons.len() && count <= opens.len() && count <= shuts.len()
}

// 1 and 2.
fn asked_refusal(
    people: usize,
    slots: usize,
    units: usize,
    base: usize,
    count: usize,
    settings: Settings,
    froms: &[u32],
    tos: &[u32],
    persons: &[u16],
    opens: &[u32],
    shuts: &[u32],
    starts: &[u32],
    ends: &[u32],
    avail: &[u64],
    begins: &[u16],
    frozen: &[u64],
    owners: &[u8],
    sets: &[u64],
    minutes: &[u64],
    totals: &[u64],
    priors: &[u32],
    retired: &[u64],
) -> Refusal
    ensures { result ≡ refusal_of (asked_row (held people slots units (columns starts.now ends.now avail.now begins.now frozen.now owners.now (derived sets.now minutes.now
        totals.now) priors.now retired.now)) (new settings base froms.now tos.now
        (ranges count persons.now opens.now shuts.now))) }
{
    let ranged = range_room_ok(count, persons, opens, shuts);
    let f = paper::check_people(paper::accepted(), people);
    let f = paper::check_slots(f, slots);
    let f = paper::check(f, base <= paper::SLOTS_MOST, 1);
    let f = paper::check(f, count <= paper::RANGES_MOST, 1);
    let f = slots::check_room(f, paper::SLOTS_MOST, starts, ends);
    let f = paper::check_words(f, people, avail);
    let f = paper::check(f, paper::SLOTS_MOST <= begins.len(), 2);
    let f = paper::check(f, units <= begins.len(), 2);
    let f = paper::check(f, paper::SET_WORDS <= frozen.len(), 2);
    let f = paper::check(f, paper::SLOTS_MOST <= owners.len(), 2);
    let f = paper::check_words(f, people, sets);
    let f = paper::check(f, people <= minutes.len(), 2);
    let f = paper::check(f, 2 <= totals.len(), 2);
    let f = paper::check(f, people <= priors.len(), 2);
    let f = paper::check(f, 1 <= retired.len(), 2);
    let f = slots::check_room(f, base, froms, tos);
    paper::check(f, ranged, 2)
}

// Whether new slots come after the last end that is left, where slots and units are sound: there are none, nothing is left, or they do.
fn comes_after(
    fault: u8,
    slots: usize,
    kept: usize,
    base: usize,
    ends: &[u32],
    froms: &[u32],
) -> bool
    ensures { result ≡ eqb fault 9 || (leb base 0 || (leb kept 0 || leb (entry ends.now (slots - 1)) (entry froms.now 0))) }
{
    fault == 9
        || base == 0
        || kept == 0
        || slots::entry_of(ends, slots.saturating_sub(1)) <= slots::entry_of(froms, 0)
}

// Rule 4 of the ranges. Where a test failed before, they are not walked.
fn check_ranges(
    before: Refusal,
    people: usize,
    count: usize,
    persons: &[u16],
    opens: &[u32],
    shuts: &[u32],
) -> Refusal
    requires { (people ≤ 32) × (1 ≤ people) × (count ≤ ranges_most)
        × (range_room_ok (ranges count persons.now opens.now shuts.now) ≡ true) }
    ensures { result ≡ next before (test 4 (ranges_ok people (ranges count persons.now opens.now shuts.now))) }
{
    if before.number != 0 {
        return before;
    }
    paper::check(before, ranges_ok(people, count, persons, opens, shuts), 4)
}

// Rule 5: more than 1,024 slots would result, where slots and units are sound. Nothing is split where a test failed before.
fn check_fits(
    before: Refusal,
    fault: u8,
    people: usize,
    kept: usize,
    base: usize,
    count: usize,
    froms: &[u32],
    tos: &[u32],
    persons: &[u16],
    opens: &[u32],
    shuts: &[u32],
) -> Refusal
    requires { (kept ≤ 1024) × (before.number ≡ 0 → NewRight people base froms.now tos.now (ranges count persons.now opens.now shuts.now)) }
    ensures { result ≡ next before (test 5 (eqb fault 9 || leb (kept + length (atom_starts (is_cut people (ranges count persons.now opens.now shuts.now)) base froms.now tos.now)) 1024)) }
{
    if before.number != 0 {
        return before;
    }
    let Some(fresh) = fresh_slots(people, base, count, froms, tos, persons, opens, shuts) else {
        return paper::check(before, fault == 9, 5);
    };
    let fits = kept + fresh.count <= paper::SLOTS_MOST;
    paper::check(before, (fault == 9) | fits, 5)
}

// Whether prior minutes and the retired total stay within 100,000,000, where the rota is whole.
fn lifted_ok(
    fault: u8,
    people: usize,
    gone: usize,
    starts: &[u32],
    ends: &[u32],
    owners: &[u8],
    priors: &[u32],
    retired: &[u64],
) -> bool
    requires { (people ≤ 32) × (fault ≡ 0 → gone ≤ 1024) }
    ensures { result ≡ not (eqb fault 0) || (all people (λ p. leb (prior_then (plan people gone starts.now ends.now) owners.now priors.now gone p) last_minute) && leb (retired_then (plan people gone starts.now ends.now) owners.now retired.now gone) last_minute) }
{
    fault != 0 || figures_then_ok(people, gone, starts, ends, owners, priors, retired)
}

// The first refusal, or else the later one.
fn or_later(first: Refusal, later: Refusal) -> Refusal
    ensures { (first.number ≡ 0 → result ≡ later) × ((first.number ≡ 0 → ⊥) → result ≡ first) }
{
    if first.number == 0 { later } else { first }
}

// All of them: 1 to 7, then 9 and 10 of the rota as it is lent.
pub(crate) fn retire_refusal(
    people: usize,
    slots: usize,
    units: usize,
    base: usize,
    count: usize,
    settings: Settings,
    froms: &[u32],
    tos: &[u32],
    persons: &[u16],
    opens: &[u32],
    shuts: &[u32],
    starts: &[u32],
    ends: &[u32],
    avail: &[u64],
    begins: &[u16],
    frozen: &[u64],
    owners: &[u8],
    sets: &[u64],
    minutes: &[u64],
    totals: &[u64],
    priors: &[u32],
    retired: &[u64],
) -> Refusal
    ensures { result ≡ refusal_of (retire_row (held people slots units (columns starts.now ends.now avail.now begins.now frozen.now owners.now (derived sets.now minutes.now
        totals.now) priors.now retired.now)) (new settings base froms.now tos.now
        (ranges count persons.now opens.now shuts.now))) }
{
    let f = asked_refusal(
        people, slots, units, base, count, settings, froms, tos, persons, opens, shuts, starts,
        ends, avail, begins, frozen, owners, sets, minutes, totals, priors, retired,
    );
    if f.number != 0 {
        return f;
    }
    let later = owners::recounted(
        true, true, people, slots, units, starts, ends, avail, begins, owners, sets, minutes,
        totals,
    );
    let fault = later.number;
    let went = gone_units(slots, units, begins, frozen);
    let gone = start_from(slots, units, begins, went);
    let kept = slots.saturating_sub(gone);
    let g = slots::check_order(f, base, froms, tos, 3);
    let g = paper::check(g, comes_after(fault, slots, kept, base, ends, froms), 3);
    let g = check_ranges(g, people, count, persons, opens, shuts);
    let g = check_fits(
        g, fault, people, kept, base, count, froms, tos, persons, opens, shuts,
    );
    let g = paper::check(g, figures_ok(people, priors, retired), 6);
    let g = paper::check(
        g,
        lifted_ok(fault, people, gone, starts, ends, owners, priors, retired),
        6,
    );
    let g = paper::check(g, units::settings_ok(settings), 7);
    or_later(g, later)
}
