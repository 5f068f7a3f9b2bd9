// Preparing a job: all that a play goes by, from a file whose layout and counts are right, with refusals 3 to 12.
ghost use Rattle.std.specs.Prelude.{◌≡◌};
ghost use Rattle.job.specs.Stages.{counted, instant_of, targets_in, frozen_in};
ghost use Rattle.job.specs.Inside.{ReadOk, SlotsAs, TargetsAs, PreparedAs};

use crate::columns::{column_f64, column16, column32};
use crate::owning::owners_of;
use crate::parts::{atoms_of, avail_of, frozen_in, instant_in, settings_in, targets_of, units_of};
use crate::play::start_rota;
use crate::{JobSlots, Prepared};
use paper::Refusal;

// The atomic slots and everybody's availability. Refusals 3, 4 and 5.
fn slots_in(file: &[u8], counts: [usize; 8], blocks: [usize; 8]) -> Result<JobSlots, Refusal>
    requires { ReadOk file.now counts blocks }
    ensures { SlotsAs file.now result }
{
    let base = blocks[1];
    let n = counts[1];
    let starts = column32(file, base + 4, 12, n);
    let ends = column32(file, base + 8, 12, n);
    let range = blocks[3];
    let m = counts[3];
    let persons = column16(file, range + 4, 14, m);
    let opens = column32(file, range + 6, 14, m);
    let shuts = column32(file, range + 10, 14, m);
    let people = counts[2];
    let atoms = atoms_of(people, n, m, &starts, &ends, &persons, &opens, &shuts)?;
    let froms = atoms.starts;
    let tos = atoms.ends;
    let avail = avail_of(
        people,
        atoms.count,
        m,
        &froms,
        &tos,
        &persons,
        &opens,
        &shuts,
    );
    Ok(JobSlots {
        count: atoms.count,
        starts: froms,
        ends: tos,
        avail,
    })
}

// The targets of n slots. Refusals 6 and 7.
fn targets_in(
    file: &[u8],
    counts: [usize; 8],
    blocks: [usize; 8],
    slots: usize,
    starts: &[u32],
    ends: &[u32],
    avail: &[u64],
) -> Result<[i64; 32], Refusal>
    requires { ReadOk file.now counts blocks }
    ensures { TargetsAs (targets_in file.now slots starts.now ends.now avail.now) result }
{
    let people = counts[2];
    let at = blocks[2];
    let capacities = column_f64(file, at + 4, 16, people);
    let priors = column32(file, at + 12, 16, people);
    let settings = settings_in(file);
    targets_of(
        people,
        slots,
        settings.fairness,
        settings.edition,
        starts,
        ends,
        avail,
        &capacities,
        &priors,
    )
}

// The flags of the slots that the freeze record freezes.
fn frozen_of(
    file: &[u8],
    counts: [usize; 8],
    blocks: [usize; 8],
    slots: usize,
    starts: &[u32],
    ends: &[u32],
) -> [u64; 16]
    requires { ReadOk file.now counts blocks }
    ensures { result ≡ frozen_in slots starts.now ends.now (counted file.now 4)
        (instant_of file.now) }
{
    let freezes = counts[4];
    let instant = instant_in(file, freezes, blocks[4]);
    frozen_in(slots, starts, ends, freezes, instant)
}

// Slots, targets, units and owners, and the rota that they make. Refusals 3 to 7 and 10 to 12.
pub(crate) fn prepare(
    file: &[u8],
    counts: [usize; 8],
    blocks: [usize; 8],
) -> Result<Prepared, Refusal>
    requires { ReadOk file.now counts blocks }
    ensures { PreparedAs file.now result }
{
    let people = counts[2];
    let s = slots_in(file, counts, blocks)?;
    let slots = s.count;
    let starts = s.starts;
    let ends = s.ends;
    let avail = s.avail;
    let targets = targets_in(file, counts, blocks, slots, &starts, &ends, &avail)?;
    let settings = settings_in(file);
    let u = units_of(slots, settings, &starts, &ends)?;
    let begins = u.begins;
    let owners = owners_of(file, blocks[5], counts[5], slots, people, u.count, &begins)?;
    let r = start_rota(people, slots, &starts, &ends, &avail, &owners)?;
    let frozen = frozen_of(file, counts, blocks, slots, &starts, &ends);
    let sets = r.sets;
    let minutes = r.minutes;
    let totals = r.totals;
    Ok(Prepared {
        people,
        slots,
        starts,
        ends,
        avail,
        units: u.count,
        begins,
        frozen,
        targets,
        owners,
        sets,
        minutes,
        totals,
    })
}
