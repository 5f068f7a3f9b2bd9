// The way back to remembered owners.
ghost use Rattle.owners.specs.Derived.{plan, derived};
ghost use Rattle.wayback.specs.Answers.{way_back_of};
ghost use Rattle.boltraven_c.specs.Ways.{WayEnds};

use crate::NOTHING;
use crate::answers::refusal_number;
use wayback::Way;

// The draws that bring remembered owners back: 0, with how many were written; 65,536, no way by reassigns, with the unit; else the refusal.
#[unsafe(no_mangle)]
pub extern "C" fn boltraven_way_back(
    people: usize,
    slots: usize,
    units: usize,
    starts: &[u32],
    ends: &[u32],
    avail: &[u64],
    unit_starts: &[u16],
    frozen: &[u64],
    remembered: &[u8],
    owners: &[u8],
    sets: &[u64],
    minutes: &[u64],
    totals: &[u64],
    draws: &mut [u16],
    firsts: &mut [u16],
    seconds: &mut [u16],
    told: &mut u64,
) -> u64
    ensures { WayEnds (way_back_of (plan people slots starts.now ends.now) avail.now units unit_starts.now frozen.now remembered.now owners.now (derived sets.now minutes.now totals.now) draws.old firsts.old seconds.old) told.old result draws.new
        firsts.new seconds.new told.new }
{
    let way = wayback::way_back(
        people,
        slots,
        units,
        starts,
        ends,
        avail,
        unit_starts,
        frozen,
        remembered,
        owners,
        sets,
        minutes,
        totals,
        draws,
        firsts,
        seconds,
    );
    match way {
        Ok(Way::Draws(n)) => {
            *told = n as u64;
            0
        }
        Ok(Way::NoWay(unit)) => {
            *told = unit as u64;
            NOTHING
        }
        Err(refusal) => refusal_number(refusal),
    }
}
