// A single assign, and a play of draws in three columns.
ghost use Rattle.std.specs.Prelude.{[]};
ghost use Rattle.owners.specs.Derived.{plan, derived};
ghost use Rattle.rota.specs.Entries.{assigned, played};
ghost use Rattle.boltraven_c.specs.Rota.{EndedAs};

// A slot assigned to a person, or cleared by 255.
#[unsafe(no_mangle)]
pub extern "C" fn boltraven_assign(
    people: usize,
    slots: usize,
    starts: &[u32],
    ends: &[u32],
    avail: &[u64],
    owners: &mut [u8],
    sets: &mut [u64],
    minutes: &mut [u64],
    totals: &mut [u64],
    slot: usize,
    owner: u8,
) -> u64
    ensures { EndedAs
        (assigned (plan people slots starts.now ends.now) avail.now owners.old
        (derived sets.old minutes.old totals.old) slot owner)
        result owners.new (derived sets.new minutes.new totals.new) [] }
{
    boltraven_c::rota_c::boltraven_assign(
        people, slots, starts, ends, avail, owners, sets, minutes, totals, slot, owner,
    )
}

// A play of draws: an answer byte each.
#[unsafe(no_mangle)]
pub extern "C" fn boltraven_play(
    people: usize,
    slots: usize,
    units: usize,
    count: usize,
    starts: &[u32],
    ends: &[u32],
    avail: &[u64],
    unit_starts: &[u16],
    frozen: &[u64],
    draws: &[u16],
    firsts: &[u16],
    seconds: &[u16],
    owners: &mut [u8],
    sets: &mut [u64],
    minutes: &mut [u64],
    totals: &mut [u64],
    answers: &mut [u8],
) -> u64
    ensures { EndedAs
        (played (plan people slots starts.now ends.now) avail.now units unit_starts.now
        frozen.now count draws.now firsts.now seconds.now owners.old
        (derived sets.old minutes.old totals.old) answers.old)
        result owners.new (derived sets.new minutes.new totals.new) answers.new }
{
    boltraven_c::rota_c::boltraven_play(
        people,
        slots,
        units,
        count,
        starts,
        ends,
        avail,
        unit_starts,
        frozen,
        draws,
        firsts,
        seconds,
        owners,
        sets,
        minutes,
        totals,
        answers,
    )
}
