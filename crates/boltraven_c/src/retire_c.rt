// Past weeks retired, and a published column after it. The settings come as their six numbers.
ghost use Rattle.std.specs.Prelude.{◌≡◌};
ghost use Rattle.paper.specs.Limits.{number_of};
ghost use Rattle.slots.specs.Ranges.{ranges};
ghost use Rattle.owners.specs.Derived.{derived};
ghost use Rattle.retire.specs.Column.{column_row, retire_column};
ghost use Rattle.retire.specs.New.{new};
ghost use Rattle.retire.specs.Outcome.{held, columns, retire_of};
ghost use Rattle.boltraven_c.specs.Units.{settings_of};
ghost use Rattle.boltraven_c.specs.Retiring.{three_numbers, RetiringEnds};

use crate::NOTHING;
use crate::answers::refusal_number;
use retire::Retiring;
use units::Settings;

// Three counts in one number: the first in bits 0 to 15, the second in bits 16 to 31, the third in bits 32 to 47.
fn three_numbers(gone: usize, slots: usize, units: usize) -> u64
    ensures { result ≡ three_numbers gone slots units }
{
    (gone % 65536) as u64 + 65536 * (slots % 65536) as u64 + 4294967296 * (units % 65536) as u64
}

// Everything would go.
const EVERYTHING: u64 = 131072;

// Retires: 0, with how many slots went, how many there are and how many units in `told`; 65,536, nothing would go; 131,072, everything would;
// else the refusal.
#[unsafe(no_mangle)]
pub extern "C" fn boltraven_retire(
    people: usize,
    slots: usize,
    units: usize,
    base: usize,
    count: usize,
    fairness: u8,
    lock: u8,
    boundary: u8,
    edition: u8,
    value: u16,
    days: u16,
    froms: &[u32],
    tos: &[u32],
    persons: &[u16],
    opens: &[u32],
    shuts: &[u32],
    starts: &mut [u32],
    ends: &mut [u32],
    avail: &mut [u64],
    unit_starts: &mut [u16],
    frozen: &mut [u64],
    owners: &mut [u8],
    sets: &mut [u64],
    minutes: &mut [u64],
    totals: &mut [u64],
    priors: &mut [u32],
    retired: &mut [u64],
    told: &mut u64,
) -> u64
    ensures { RetiringEnds (retire_of (held people slots units (columns starts.old ends.old avail.old
        unit_starts.old frozen.old owners.old (derived sets.old minutes.old totals.old) priors.old retired.old)) (new (settings_of fairness lock boundary edition value days) base froms.now tos.now (ranges count persons.now opens.now shuts.now))) told.old result
        (columns starts.new ends.new avail.new unit_starts.new frozen.new owners.new
        (derived sets.new minutes.new totals.new) priors.new retired.new) told.new }
{
    let settings = Settings {
        fairness,
        lock,
        boundary,
        edition,
        value,
        days,
    };
    match retire::retire(
        people,
        slots,
        units,
        base,
        count,
        settings,
        froms,
        tos,
        persons,
        opens,
        shuts,
        starts,
        ends,
        avail,
        unit_starts,
        frozen,
        owners,
        sets,
        minutes,
        totals,
        priors,
        retired,
    ) {
        Ok(Retiring::Retired { gone, slots, units }) => {
            *told = three_numbers(gone, slots, units);
            0
        }
        Ok(Retiring::Nothing) => NOTHING,
        Ok(Retiring::Everything) => EVERYTHING,
        Err(refusal) => refusal_number(refusal),
    }
}

// A published column after retiring: the rest to the front, nobody in new slots.
#[unsafe(no_mangle)]
pub extern "C" fn boltraven_retire_column(
    before: usize,
    gone: usize,
    count: usize,
    column: &mut [u8],
) -> u8
    ensures value { result ≡ number_of (column_row before gone count column.old) }
    ensures column_after { column.new ≡ retire_column before gone count column.old }
{
    retire::retire_column(before, gone, count, column)
}
