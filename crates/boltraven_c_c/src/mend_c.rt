// A damaged rota mended.
ghost use Rattle.owners.specs.Derived.{plan, derived};
ghost use Rattle.mend.specs.Repairs.{rota};
ghost use Rattle.mend.specs.Answers.{mending};
ghost use Rattle.boltraven_c.specs.Mends.{MendEnds};

// How many repairs it took, five numbers of the list each; or the refusal.
#[unsafe(no_mangle)]
pub extern "C" fn boltraven_mend(
    people: usize,
    slots: usize,
    units: usize,
    starts: &[u32],
    ends: &[u32],
    avail: &[u64],
    unit_starts: &[u16],
    frozen: &[u64],
    owners: &mut [u8],
    sets: &mut [u64],
    minutes: &mut [u64],
    totals: &mut [u64],
    list: &mut [u64],
) -> u64
    ensures { MendEnds (mending (plan people slots starts.now ends.now) avail.now units unit_starts.now frozen.now (rota owners.old (derived sets.old minutes.old totals.old)) list.old) result (rota owners.new (derived sets.new minutes.new totals.new)) list.new }
{
    boltraven_c::mend_c::boltraven_mend(
        people,
        slots,
        units,
        starts,
        ends,
        avail,
        unit_starts,
        frozen,
        owners,
        sets,
        minutes,
        totals,
        list,
    )
}
