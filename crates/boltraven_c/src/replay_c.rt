// A recorded block, replayed.
ghost use Rattle.owners.specs.Derived.{plan, derived};
ghost use Rattle.rota.specs.Replays.{replayed};
ghost use Rattle.boltraven_c.specs.Replay.{ReplayEnds};

use crate::NOTHING;
use crate::answers::refusal_number;
use rota::replay::Replayed;

// A block of draws beside their recorded answers: 0, all agree; 65,536, the first that differs, with its place; else the refusal.
#[unsafe(no_mangle)]
pub extern "C" fn boltraven_replay_block(
    people: usize,
    slots: usize,
    units: usize,
    count: usize,
    starts: &[u32],
    ends: &[u32],
    avail: &[u64],
    unit_starts: &[u16],
    frozen: &[u64],
    draws: &[u16],
    firsts: &[u16],
    seconds: &[u16],
    recorded: &[u16],
    owners: &mut [u8],
    sets: &mut [u64],
    minutes: &mut [u64],
    totals: &mut [u64],
    place: &mut u64,
) -> u64
    ensures { ReplayEnds (replayed (plan people slots starts.now ends.now) avail.now units unit_starts.now frozen.now count draws.now firsts.now seconds.now recorded.now owners.old (derived sets.old minutes.old totals.old)) place.old result owners.new (derived sets.new minutes.new totals.new) place.new }
{
    match rota::replay::replay_block(
        people,
        slots,
        units,
        count,
        starts,
        ends,
        avail,
        unit_starts,
        frozen,
        draws,
        firsts,
        seconds,
        recorded,
        owners,
        sets,
        minutes,
        totals,
    ) {
        Ok(Replayed::Agrees) => 0,
        Ok(Replayed::Differs(p)) => {
            *place = p as u64;
            NOTHING
        }
        Err(refusal) => refusal_number(refusal),
    }
}
