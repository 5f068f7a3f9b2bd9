// A play over a lent list of draws, three numbers each, held together as structs.
ghost use Rattle.owners.specs.Derived.{plan, derived};
ghost use Rattle.rota.specs.Draws.{played_draws};
ghost use Rattle.boltraven_c.specs.Rota.{EndedAs};

use rota::draws::Draw;

// A play of draws: an answer byte each.
#[unsafe(no_mangle)]
pub extern "C" fn boltraven_play_draws(
    people: usize,
    slots: usize,
    units: usize,
    count: usize,
    starts: &[u32],
    ends: &[u32],
    avail: &[u64],
    unit_starts: &[u16],
    frozen: &[u64],
    draws: &[Draw],
    owners: &mut [u8],
    sets: &mut [u64],
    minutes: &mut [u64],
    totals: &mut [u64],
    answers: &mut [u8],
) -> u64
    ensures { EndedAs
        (played_draws (plan people slots starts.now ends.now) avail.now units unit_starts.now
        frozen.now count draws.now owners.old (derived sets.old minutes.old
        totals.old) answers.old)
        result owners.new (derived sets.new minutes.new totals.new) answers.new }
{
    boltraven_c::draws_c::boltraven_play_draws(
        people,
        slots,
        units,
        count,
        starts,
        ends,
        avail,
        unit_starts,
        frozen,
        draws,
        owners,
        sets,
        minutes,
        totals,
        answers,
    )
}
