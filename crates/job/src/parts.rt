// The parts of a job by value: settings, atomic slots, units, targets, availability and frozen flags, each by the crate that works it out.
ghost use Rattle.std.specs.Prelude.{◌≡◌, cond, ◌+◌, ◌≤◌, eqb, pos, length, replicate};
ghost use Rattle.slots.specs.Ranges.{ranges};
ghost use Rattle.slots.specs.Atomic.{base, atomise_of};
ghost use Rattle.slots.specs.Availability.{availability_of};
ghost use Rattle.units.specs.Starts.{unit_starts_is};
ghost use Rattle.targets.specs.Outcome.{given, compute_targets};
ghost use Rattle.records.specs.Fields.{le};
ghost use Rattle.job.specs.Stages.{settings_in, frozen_in};
ghost use Rattle.job.specs.Inside.{AtomsAs, UnitsAs, TargetsAs};

use crate::fields::field;
use crate::run::placeless;
use crate::{Atoms, JobUnits};
use paper::Refusal;
use units::Settings;

// The settings.
pub(crate) fn settings_in(s: &[u8]) -> Settings
    requires { 12 ≤ length s.now }
    ensures { result ≡ settings_in s.now }
{
    let value = field(s, 8, 2) as u16;
    let days = field(s, 10, 2) as u16;
    Settings {
        fairness: s[4],
        lock: s[5],
        boundary: s[6],
        edition: s[7],
        value,
        days,
    }
}

// The atomic slots. Refusals 3, 4 and 5 (1 and 2 are ruled out by the counts).
pub(crate) fn atoms_of(
    people: usize,
    slots: usize,
    count: usize,
    starts: &[u32],
    ends: &[u32],
    persons: &[u16],
    opens: &[u32],
    shuts: &[u32],
) -> Result<Atoms, Refusal>
    ensures { AtomsAs (atomise_of (base slots starts.now ends.now people
        (ranges count persons.now opens.now shuts.now) (replicate 1024 0) (replicate 1024 0))) result }
{
    let mut froms = [0u32; 1024];
    let mut tos = [0u32; 1024];
    let answer = slots::atomise(
        people, slots, count, starts, ends, persons, opens, shuts, &mut froms, &mut tos,
    );
    match answer {
        Ok(n) => Ok(Atoms {
            count: n,
            starts: froms,
            ends: tos,
        }),
        Err(k) => Err(placeless(k)),
    }
}

// The frozen flags.
pub(crate) fn frozen_in(
    slots: usize,
    starts: &[u32],
    ends: &[u32],
    freezes: usize,
    instant: u32,
) -> [u64; 16]
    ensures { result ≡ frozen_in slots starts.now ends.now freezes instant }
{
    let mut flags = [0u64; 16];
    if freezes == 0 {
        return flags;
    }
    let _ = slots::freeze_before(slots, starts, ends, &mut flags, instant);
    flags
}

// The units. Refusal 7.
pub(crate) fn units_of(
    slots: usize,
    settings: Settings,
    starts: &[u32],
    ends: &[u32],
) -> Result<JobUnits, Refusal>
    ensures { UnitsAs (unit_starts_is settings slots starts.now ends.now (replicate 1024 0)) result }
{
    let mut begins = [0u16; 1024];
    let answer = units::unit_starts(slots, settings, starts, ends, &mut begins);
    match answer {
        Ok(n) => Ok(JobUnits { count: n, begins }),
        Err(k) => Err(placeless(k)),
    }
}

// The targets. Refusals 6 and 7 (8 is never given on accepted figures).
pub(crate) fn targets_of(
    people: usize,
    slots: usize,
    fairness: u8,
    edition: u8,
    starts: &[u32],
    ends: &[u32],
    avail: &[u64],
    capacities: &[f64],
    priors: &[u32],
) -> Result<[i64; 32], Refusal>
    ensures { TargetsAs (compute_targets (given people slots starts.now ends.now avail.now
        capacities.now priors.now fairness edition) (replicate 32 (pos 0))) result }
{
    let mut out = [0i64; 32];
    let number = targets::compute_targets(
        people, slots, fairness, edition, starts, ends, avail, capacities, priors, &mut out,
    );
    if number != 0 {
        return Err(placeless(number));
    }
    Ok(out)
}

// Everybody's availability, a set a person.
pub(crate) fn avail_of(
    people: usize,
    slots: usize,
    count: usize,
    starts: &[u32],
    ends: &[u32],
    persons: &[u16],
    opens: &[u32],
    shuts: &[u32],
) -> [u64; 512]
    ensures { (result ≡ availability_of people slots starts.now ends.now
        (ranges count persons.now opens.now shuts.now) (replicate 512 0)) × (length result ≡ 512) }
{
    let mut words = [0u64; 512];
    slots::availability(
        people, slots, count, starts, ends, persons, opens, shuts, &mut words,
    );
    words
}

// The instant of the freeze record, which stands at `at`; 0 where there is none.
pub(crate) fn instant_in(s: &[u8], freezes: usize, at: usize) -> u32
    requires { (freezes ≡ 0 → ⊥) → at + 8 ≤ length s.now }
    ensures { result ≡ cond (eqb freezes 0) 0 (le 4 s.now (at + 4)) }
{
    if freezes == 0 {
        return 0;
    }
    field(s, at + 4, 4) as u32
}
