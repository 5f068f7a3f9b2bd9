// Dates, rotations and units, who can cover them, and how long runs are. The settings come as their six numbers.
ghost use Rattle.std.specs.Prelude.{◌≡◌};
ghost use Rattle.units.specs.Dates.{date_of, weekday_of};
ghost use Rattle.paper.specs.Limits.{number_of};
ghost use Rattle.units.specs.Domains.{slot_domain_is, unit_domain_is, unit_domains_row, unit_domains_is, unit_frozen_is};
ghost use Rattle.boltraven_c.specs.Numbers.{yes_no_number, plain_number, number_is, minutes_written};
ghost use Rattle.paper.specs.Rows.{answer_refusal};
ghost use Rattle.units.specs.Days.{covered_days_is, minutes_per_day_is, target_run_is};
ghost use Rattle.units.specs.Achievable.{achievable_run_is, achievable_runs_row, achievable_runs_is};
ghost use Rattle.boltraven_c.specs.Units.{settings_of, span_from, span_to};
ghost use Rattle.units.specs.Answers.{unit_slots_is, unit_of_slot_is};
ghost use Rattle.units.specs.Starts.{rotation_starts_is, unit_starts_is};

use crate::answers::{plain_number, put_minutes, put_number, yes_no_number};
use units::Settings;

// The date of a minute, in days from 1970-01-01 on.
#[unsafe(no_mangle)]
pub extern "C" fn boltraven_date_of(minute: u32) -> u32
    ensures { result ≡ date_of minute }
{
    units::date_of(minute)
}

// The weekday of a date, 0 for Monday.
#[unsafe(no_mangle)]
pub extern "C" fn boltraven_weekday_of(date: u32) -> u32
    ensures { result ≡ weekday_of date }
{
    units::weekday_of(date)
}

// The people available for a slot, ascending, and how many.
#[unsafe(no_mangle)]
pub extern "C" fn boltraven_slot_domain(
    people: usize,
    slots: usize,
    avail: &[u64],
    list: &mut [u8],
    slot: usize,
) -> u64
    ensures value { result ≡ plain_number (slot_domain_is avail.now people slots slot list.old).answer }
    ensures list_after { list.new ≡ (slot_domain_is avail.now people slots slot list.old).buffer }
{
    plain_number(units::slot_domain(people, slots, avail, list, slot))
}

// The people available for all slots of a unit, ascending, and how many.
#[unsafe(no_mangle)]
pub extern "C" fn boltraven_unit_domain(
    people: usize,
    slots: usize,
    units: usize,
    avail: &[u64],
    unit_starts: &[u16],
    list: &mut [u8],
    unit: usize,
) -> u64
    ensures value { result ≡ plain_number
        (unit_domain_is avail.now people slots units unit_starts.now unit list.old).answer }
    ensures list_after { list.new
        ≡ (unit_domain_is avail.now people slots units unit_starts.now unit list.old).buffer }
{
    plain_number(units::unit_domain(people, slots, units, avail, unit_starts, list, unit))
}

// For each unit the mask of the people available for all its slots: bit p is 1 exactly when person p is.
#[unsafe(no_mangle)]
pub extern "C" fn boltraven_unit_domains(
    people: usize,
    slots: usize,
    units: usize,
    avail: &[u64],
    unit_starts: &[u16],
    masks: &mut [u32],
) -> u8
    ensures value { result ≡ number_of (unit_domains_row avail.now people slots units unit_starts.now
        masks.old) }
    ensures masks_after { masks.new
        ≡ unit_domains_is avail.now people slots units unit_starts.now masks.old }
{
    units::unit_domains(people, slots, units, avail, unit_starts, masks)
}

// Whether any slot of a unit is frozen: 1 or 0.
#[unsafe(no_mangle)]
pub extern "C" fn boltraven_unit_frozen(
    slots: usize,
    units: usize,
    unit_starts: &[u16],
    frozen: &[u64],
    unit: usize,
) -> u64
    ensures { result ≡ yes_no_number (unit_frozen_is frozen.now slots units unit_starts.now unit) }
{
    yes_no_number(units::unit_frozen(slots, units, unit_starts, frozen, unit))
}

// The distinct dates on which a minute of a slot falls: up to 69,445.
#[unsafe(no_mangle)]
pub extern "C" fn boltraven_covered_days(
    slots: usize,
    starts: &[u32],
    ends: &[u32],
    out: &mut u64,
) -> u8
    ensures value { result ≡ answer_refusal (covered_days_is slots starts.now ends.now) }
    ensures out_after { out.new
        ≡ number_is out.old (covered_days_is slots starts.now ends.now) }
{
    let days = units::covered_days(slots, starts, ends);
    put_number(days, out)
}

// Minutes a day.
#[unsafe(no_mangle)]
pub extern "C" fn boltraven_minutes_per_day(
    slots: usize,
    starts: &[u32],
    ends: &[u32],
    out: &mut u64,
) -> u8
    ensures value { result ≡ answer_refusal (minutes_per_day_is slots starts.now ends.now) }
    ensures out_after { out.new
        ≡ minutes_written out.old (minutes_per_day_is slots starts.now ends.now) }
{
    let minutes = units::minutes_per_day(slots, starts, ends);
    put_minutes(minutes, out)
}

// The target run.
#[unsafe(no_mangle)]
pub extern "C" fn boltraven_target_run(
    slots: usize,
    fairness: u8,
    lock: u8,
    boundary: u8,
    edition: u8,
    value: u16,
    days: u16,
    starts: &[u32],
    ends: &[u32],
    out: &mut u64,
) -> u8
    ensures value { result ≡ answer_refusal
        (target_run_is (settings_of fairness lock boundary edition value days) slots starts.now ends.now) }
    ensures out_after { out.new ≡ minutes_written out.old
        (target_run_is (settings_of fairness lock boundary edition value days) slots starts.now ends.now) }
{
    let settings = Settings {
        fairness,
        lock,
        boundary,
        edition,
        value,
        days,
    };
    let minutes = units::target_run(slots, settings, starts, ends);
    put_minutes(minutes, out)
}

// A person's achievable run.
#[unsafe(no_mangle)]
pub extern "C" fn boltraven_achievable_run(
    people: usize,
    slots: usize,
    fairness: u8,
    lock: u8,
    boundary: u8,
    edition: u8,
    value: u16,
    days: u16,
    starts: &[u32],
    ends: &[u32],
    avail: &[u64],
    person: usize,
    out: &mut u64,
) -> u8
    ensures value { result ≡ answer_refusal
        (achievable_run_is (settings_of fairness lock boundary edition value days) avail.now people person slots
        starts.now ends.now) }
    ensures out_after { out.new ≡ minutes_written out.old
        (achievable_run_is (settings_of fairness lock boundary edition value days) avail.now people person slots
        starts.now ends.now) }
{
    let settings = Settings {
        fairness,
        lock,
        boundary,
        edition,
        value,
        days,
    };
    let minutes = units::achievable_run(people, slots, settings, starts, ends, avail, person);
    put_minutes(minutes, out)
}

// Everybody's achievable run.
#[unsafe(no_mangle)]
pub extern "C" fn boltraven_achievable_runs(
    people: usize,
    slots: usize,
    fairness: u8,
    lock: u8,
    boundary: u8,
    edition: u8,
    value: u16,
    days: u16,
    starts: &[u32],
    ends: &[u32],
    avail: &[u64],
    runs: &mut [u64],
) -> u8
    ensures value { result ≡ number_of
        (achievable_runs_row (settings_of fairness lock boundary edition value days) avail.now people slots starts.now
        ends.now runs.old) }
    ensures runs_after { runs.new
        ≡ achievable_runs_is (settings_of fairness lock boundary edition value days) avail.now people slots starts.now
        ends.now runs.old }
{
    let settings = Settings {
        fairness,
        lock,
        boundary,
        edition,
        value,
        days,
    };
    units::achievable_runs(people, slots, settings, starts, ends, avail, runs)
}

// The starts of the rotations, and how many.
#[unsafe(no_mangle)]
pub extern "C" fn boltraven_rotation_starts(
    slots: usize,
    fairness: u8,
    lock: u8,
    boundary: u8,
    edition: u8,
    value: u16,
    days: u16,
    starts: &[u32],
    ends: &[u32],
    unit_starts: &mut [u16],
) -> u64
    ensures value { result ≡ plain_number
        (rotation_starts_is (settings_of fairness lock boundary edition value days) slots starts.now ends.now
        unit_starts.old).answer }
    ensures unit_starts_after { unit_starts.new
        ≡ (rotation_starts_is (settings_of fairness lock boundary edition value days) slots starts.now ends.now
        unit_starts.old).buffer }
{
    let settings = Settings {
        fairness,
        lock,
        boundary,
        edition,
        value,
        days,
    };
    plain_number(units::rotation_starts(slots, settings, starts, ends, unit_starts))
}

// The starts of the units, and how many.
#[unsafe(no_mangle)]
pub extern "C" fn boltraven_unit_starts(
    slots: usize,
    fairness: u8,
    lock: u8,
    boundary: u8,
    edition: u8,
    value: u16,
    days: u16,
    starts: &[u32],
    ends: &[u32],
    unit_starts: &mut [u16],
) -> u64
    ensures value { result ≡ plain_number
        (unit_starts_is (settings_of fairness lock boundary edition value days) slots starts.now ends.now
        unit_starts.old).answer }
    ensures unit_starts_after { unit_starts.new
        ≡ (unit_starts_is (settings_of fairness lock boundary edition value days) slots starts.now ends.now
        unit_starts.old).buffer }
{
    let settings = Settings {
        fairness,
        lock,
        boundary,
        edition,
        value,
        days,
    };
    plain_number(units::unit_starts(slots, settings, starts, ends, unit_starts))
}

// The slots of a unit (or of a rotation): `from` up to `to`, without `to`.
#[unsafe(no_mangle)]
pub extern "C" fn boltraven_unit_slots(
    slots: usize,
    units: usize,
    unit_starts: &[u16],
    unit: usize,
    from: &mut u64,
    to: &mut u64,
) -> u8
    ensures value { result ≡ answer_refusal (unit_slots_is slots units unit_starts.now unit) }
    ensures from_after { from.new ≡ span_from from.old (unit_slots_is slots units unit_starts.now unit) }
    ensures to_after { to.new ≡ span_to to.old (unit_slots_is slots units unit_starts.now unit) }
{
    match units::unit_slots(slots, units, unit_starts, unit) {
        Ok(span) => {
            *from = span.from as u64;
            *to = span.to as u64;
            0
        }
        Err(n) => n,
    }
}

// The unit (or the rotation) of a slot.
#[unsafe(no_mangle)]
pub extern "C" fn boltraven_unit_of_slot(
    slots: usize,
    units: usize,
    unit_starts: &[u16],
    slot: usize,
) -> u64
    ensures { result ≡ plain_number (unit_of_slot_is slots units unit_starts.now slot) }
{
    plain_number(units::unit_of_slot(slots, units, unit_starts, slot))
}
