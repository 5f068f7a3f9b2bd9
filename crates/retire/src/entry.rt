// The entry: what stands against retiring, how much would go, and the work.
ghost use Rattle.std.specs.Prelude.{◌≡◌};
ghost use Rattle.slots.specs.Ranges.{ranges};
ghost use Rattle.owners.specs.Derived.{derived};
ghost use Rattle.retire.specs.New.{new};
ghost use Rattle.retire.specs.Outcome.{held, columns, retire_of, Ended};

use crate::Retiring;
use crate::asking::retire_refusal;
use crate::going::{gone_units, start_from};
use crate::moving::{add_figures, move_owners, move_plan};
use paper::Refusal;
use units::Settings;

// Retires the leading units of which every slot is frozen: the rest comes to the front, each person's minutes go to their priors and those
// that nobody owned to the retired total, and `base` new slots, split over the `count` ranges, come behind, with nobody on them. Where
// nothing or everything would go it says so and changes nothing. Refusals 1, 2, 3, 4, 5, 6, 7, 9, 10.
pub fn retire(
    people: usize,
    slots: usize,
    units: usize,
    base: usize,
    count: usize,
    settings: Settings,
    froms: &[u32],
    tos: &[u32],
    persons: &[u16],
    opens: &[u32],
    shuts: &[u32],
    starts: &mut [u32],
    ends: &mut [u32],
    avail: &mut [u64],
    begins: &mut [u16],
    frozen: &mut [u64],
    owners: &mut [u8],
    sets: &mut [u64],
    minutes: &mut [u64],
    totals: &mut [u64],
    priors: &mut [u32],
    retired: &mut [u64],
) -> Result<Retiring, Refusal>
    ensures { Ended (retire_of (held people slots units (columns starts.old ends.old avail.old begins.old frozen.old owners.old (derived sets.old minutes.old totals.old) priors.old retired.old)) (new settings base froms.now tos.now (ranges count
        persons.now opens.now shuts.now))) result (columns starts.new ends.new avail.new begins.new frozen.new owners.new (derived sets.new minutes.new totals.new) priors.new retired.new) }
{
    let f = retire_refusal(
        people, slots, units, base, count, settings, froms, tos, persons, opens, shuts, starts,
        ends, avail, begins, frozen, owners, sets, minutes, totals, priors, retired,
    );
    if f.number != 0 {
        return Err(f);
    }
    let went = gone_units(slots, units, begins, frozen);
    if went == 0 {
        return Ok(Retiring::Nothing);
    }
    if went == units {
        return Ok(Retiring::Everything);
    }
    let gone = start_from(slots, units, begins, went);
    add_figures(people, gone, starts, ends, owners, priors, retired);
    let then = move_plan(
        people, slots, units, base, count, settings, froms, tos, persons, opens, shuts, starts,
        ends, avail, begins, frozen, went,
    );
    let held = then.slots;
    move_owners(
        people,
        held,
        starts,
        ends,
        avail,
        owners,
        sets,
        minutes,
        totals,
        gone,
        slots - gone,
    );
    Ok(Retiring::Retired {
        gone,
        slots: held,
        units: then.units,
    })
}
