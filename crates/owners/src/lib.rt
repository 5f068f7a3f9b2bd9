// Owners of slots, and what is derived from them: each person's set of slots and minutes; made, read, handed over and recounted.
#![tactic(auto)]

mod checks;
mod derived;
mod entries;
mod recounting;
mod scan;

pub use derived::{fill_owners, hand_over};
pub use entries::{
    empty, from_slots, minutes_of, owner_of_slot, slots_of, unassigned_count, uncovered_minutes,
};
pub use recounting::{recount, recount_slots, recounted};
pub use scan::{available_for, first_unavailable, first_uneven, first_unknown, known_by, owner_at};
