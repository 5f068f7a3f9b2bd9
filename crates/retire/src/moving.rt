// The work: slots, units, availability and flags move; then owners, and what is derived from them; then the minutes that went.
ghost use Rattle.std.specs.Prelude.{◌≡◌, true, ℕ, ◌+◌, ◌-◌, ◌*◌, ◌≤◌, ◌<◌, length};
ghost use Rattle.paper.specs.Limits.{nobody, last_minute, number_of};
ghost use Rattle.slotset.specs.Slots.{slot, put_slots};
ghost use Rattle.slots.specs.Ranges.{ranges};
ghost use Rattle.owners.specs.Derived.{plan, derived, afresh};
ghost use Rattle.owners.specs.Entries.{from_slots_row};
ghost use Rattle.retire.specs.Rolled.{rolled, rolled_column};
ghost use Rattle.retire.specs.Going.{gone_units, prior_then, retired_then, priors_then, retired_column};
ghost use Rattle.retire.specs.New.{new};
ghost use Rattle.retire.specs.Inside.{plan_held, PlanRight, PlanMoved};

use crate::column::roll_owners;
use crate::figures::{add_priors, add_retired};
use crate::fresh::{fresh_slots, fresh_units, fresh_words};
use crate::going::start_from;
use crate::rolling::{roll_begins, roll_minutes, roll_row, roll_rows};
use units::Settings;

// How many slots and units there are then.
#[derive(Clone, Copy)]
pub struct Counts {
    pub slots: usize,
    pub units: usize,
}

// Flags: what is new is not frozen.
fn roll_frozen(count: usize, gone: usize, kept: usize, frozen: &mut [u64])
    requires { (16 ≤ length frozen.old) × (count ≤ 1024) × (gone + kept ≤ 1024) }
    ensures { frozen.new ≡ put_slots (rolled gone kept (slot frozen.old 0) (λ _. 0)) 0 0 count frozen.old }
{
    let none = [0u64; 1];
    roll_row(1, count, gone, kept, &none, frozen, 0);
}

// Slots, units, availability and flags: the rest comes to the front, and what is new behind it.
pub(crate) fn move_plan(
    people: usize,
    slots: usize,
    units: usize,
    base: usize,
    count: usize,
    settings: Settings,
    froms: &[u32],
    tos: &[u32],
    persons: &[u16],
    opens: &[u32],
    shuts: &[u32],
    starts: &mut [u32],
    ends: &mut [u32],
    avail: &mut [u64],
    begins: &mut [u16],
    frozen: &mut [u64],
    went: usize,
) -> Counts
    requires plan_right { PlanRight (plan_held people slots units starts.old ends.old avail.old begins.old frozen.old) (new settings base froms.now tos.now (ranges count persons.now opens.now shuts.now)) }
    requires went_value { went ≡ gone_units slots units begins.old frozen.old }
    ensures { PlanMoved (plan_held people slots units starts.old ends.old avail.old begins.old frozen.old) (new settings base froms.now tos.now (ranges count persons.now opens.now shuts.now)) result.slots result.units starts.new ends.new avail.new begins.new frozen.new }
{
    let gone = start_from(slots, units, begins, went);
    let kept = slots - gone;
    let left = units - went;
    // They were judged to fit.
    let Some(fresh) = fresh_slots(people, base, count, froms, tos, persons, opens, shuts) else {
        return Counts { slots, units };
    };
    let n = fresh.count;
    let words = fresh_words(
        people,
        n,
        count,
        &fresh.starts,
        &fresh.ends,
        persons,
        opens,
        shuts,
    );
    let some = fresh_units(n, settings, &fresh.starts, &fresh.ends);
    let slots = kept + n;
    let units = left + some.count;
    roll_frozen(slots, gone, kept, frozen);
    roll_rows(people, slots, gone, kept, &words, avail);
    roll_begins(went, left, units, gone, kept, &some.begins, begins);
    roll_minutes(gone, kept, slots, &fresh.starts, starts);
    roll_minutes(gone, kept, slots, &fresh.ends, ends);
    Counts { slots, units }
}

// Owners, over slots that moved before; and what is derived from them, worked out afresh.
pub(crate) fn move_owners(
    people: usize,
    slots: usize,
    starts: &[u32],
    ends: &[u32],
    avail: &[u64],
    owners: &mut [u8],
    sets: &mut [u64],
    minutes: &mut [u64],
    totals: &mut [u64],
    gone: usize,
    kept: usize,
)
    requires kept_in_bounds { (gone + kept ≤ length owners.old) × (slots ≤ length owners.old) }
    requires totals_value { number_of (from_slots_row (plan people slots starts.now ends.now) avail.now (rolled_column gone kept slots (λ _. nobody)
        owners.old) (derived sets.old minutes.old totals.old)) ≡ 0 }
    ensures { (owners.new ≡ rolled_column gone kept slots (λ _. nobody) owners.old)
        × (derived sets.new minutes.new totals.new ≡ afresh (plan people slots starts.now ends.now) (rolled_column gone kept slots (λ _. nobody) owners.old) (derived sets.old minutes.old totals.old)) }
{
    roll_owners(gone, kept, slots, owners);
    owners::from_slots(
        people, slots, starts, ends, avail, owners, sets, minutes, totals,
    );
}

// The minutes of the slots that go: each person's to their priors, nobody's to the retired total.
pub(crate) fn add_figures(
    people: usize,
    gone: usize,
    starts: &[u32],
    ends: &[u32],
    owners: &[u8],
    priors: &mut [u32],
    retired: &mut [u64],
)
    requires people_bound { (people ≤ 32) × (gone ≤ 1024) × (people ≤ length priors.old) × (1 ≤ length retired.old) }
    requires by_index { ((p : ℕ) → p < people → prior_then (plan people gone starts.now ends.now) owners.now priors.old gone p ≤ last_minute)
        × (retired_then (plan people gone starts.now ends.now) owners.now retired.old gone ≤ last_minute) }
    ensures { (priors.new ≡ priors_then (plan people gone starts.now ends.now) owners.now priors.old gone) × (retired.new ≡ retired_column (plan people gone starts.now ends.now) owners.now retired.old gone) }
{
    add_priors(people, gone, starts, ends, owners, priors);
    add_retired(people, gone, starts, ends, owners, retired);
}
