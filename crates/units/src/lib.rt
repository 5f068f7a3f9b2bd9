// Rotations, units, domains and run lengths of lent slots.
#![tactic(auto)]

mod dates;
mod days;
mod domains;
mod lent;
mod masks;
mod refuse;
mod runs;
mod starts;

pub use dates::{date_of, weekday_of};
pub use days::{covered_days, minutes_per_day, target_run};
pub use domains::{slot_domain, unit_domain, unit_frozen};
pub use lent::{check_units, start_of, unit_count, unit_end, unit_of_slot, unit_slots, units_ok};
pub use masks::unit_domains;
pub use refuse::settings_ok;
pub use runs::{achievable_run, achievable_runs};
pub use starts::{rotation_starts, unit_starts};

// How a rota is to be made. Boundary 0: a rotation every `value` slots; 1: on the weekdays of the mask `value`, bit 0 Monday.
// Edition 0: the remainder of the targets by edition 1 of the rule; 1: by edition 2.
#[derive(Clone, Copy)]
pub struct Settings {
    pub fairness: u8,
    pub lock: u8,
    pub boundary: u8,
    pub edition: u8,
    pub value: u16,
    pub days: u16,
}

// The slots of a unit: `from` up to `to`, without `to`.
#[derive(Clone, Copy)]
pub struct UnitSlots {
    pub from: usize,
    pub to: usize,
}
