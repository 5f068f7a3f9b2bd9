// Past weeks retired, and a published column after it. The settings come as their six numbers.
ghost use Rattle.std.specs.Prelude.{◌≡◌};
ghost use Rattle.paper.specs.Limits.{number_of};
ghost use Rattle.slots.specs.Ranges.{ranges};
ghost use Rattle.owners.specs.Derived.{derived};
ghost use Rattle.retire.specs.Column.{column_row, retire_column};
ghost use Rattle.retire.specs.New.{new};
ghost use Rattle.retire.specs.Outcome.{held, columns, retire_of};
ghost use Rattle.boltraven_c.specs.Units.{settings_of};
ghost use Rattle.boltraven_c.specs.Retiring.{RetiringEnds};

// Retires: 0, with how many slots went, how many there are and how many units in `told`; 65,536, nothing would go; 131,072, everything would;
// else the refusal.
#[unsafe(no_mangle)]
pub extern "C" fn boltraven_retire(
    people: usize,
    slots: usize,
    units: usize,
    base: usize,
    count: usize,
    fairness: u8,
    lock: u8,
    boundary: u8,
    edition: u8,
    value: u16,
    days: u16,
    froms: &[u32],
    tos: &[u32],
    persons: &[u16],
    opens: &[u32],
    shuts: &[u32],
    starts: &mut [u32],
    ends: &mut [u32],
    avail: &mut [u64],
    unit_starts: &mut [u16],
    frozen: &mut [u64],
    owners: &mut [u8],
    sets: &mut [u64],
    minutes: &mut [u64],
    totals: &mut [u64],
    priors: &mut [u32],
    retired: &mut [u64],
    told: &mut u64,
) -> u64
    ensures { RetiringEnds (retire_of (held people slots units (columns starts.old ends.old avail.old
        unit_starts.old frozen.old owners.old (derived sets.old minutes.old totals.old) priors.old retired.old)) (new (settings_of fairness lock boundary edition value days) base froms.now tos.now (ranges count persons.now opens.now shuts.now))) told.old result
        (columns starts.new ends.new avail.new unit_starts.new frozen.new owners.new
        (derived sets.new minutes.new totals.new) priors.new retired.new) told.new }
{
    boltraven_c::retire_c::boltraven_retire(
        people,
        slots,
        units,
        base,
        count,
        fairness,
        lock,
        boundary,
        edition,
        value,
        days,
        froms,
        tos,
        persons,
        opens,
        shuts,
        starts,
        ends,
        avail,
        unit_starts,
        frozen,
        owners,
        sets,
        minutes,
        totals,
        priors,
        retired,
        told,
    )
}

// A published column after retiring: the rest to the front, nobody in new slots.
#[unsafe(no_mangle)]
pub extern "C" fn boltraven_retire_column(
    before: usize,
    gone: usize,
    count: usize,
    column: &mut [u8],
) -> u8
    ensures value { result ≡ number_of (column_row before gone count column.old) }
    ensures column_after { column.new ≡ retire_column before gone count column.old }
{
    boltraven_c::retire_c::boltraven_retire_column(before, gone, count, column)
}
