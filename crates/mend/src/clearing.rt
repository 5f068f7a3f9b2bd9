// The two steps that clear owners.
ghost use Rattle.std.specs.Prelude.{◌≡◌, true, cond, ◌&&◌, ◌≤◌, ◌<◌, length};
ghost use Rattle.paper.specs.Limits.{nobody};
ghost use Rattle.units.specs.Units.{units_ok};
ghost use Rattle.owners.specs.Derived.{known_by};
ghost use Rattle.owners.specs.Recount.{available_for, even_at};
ghost use Rattle.mend.specs.Mended.{barred_cleared, uneven_cleared};

use owners::{available_for, known_by};

// The owner that a slot is left with: nobody, where its owner is unknown or not available for it.
fn left_to(people: usize, avail: &[u64], owner: u8, k: usize) -> u8
    ensures { result ≡ cond (known_by people owner && available_for avail.now owner k) owner nobody }
{
    if known_by(people, owner) && available_for(avail, owner, k) {
        owner
    } else {
        paper::NOBODY
    }
}

// Step 1: each owner who is unknown, or not available for the slot, is cleared.
pub(crate) fn clear_barred(people: usize, slots: usize, avail: &[u64], owners: &mut [u8])
    requires { slots ≤ length owners.old }
    ensures { owners.new ≡ barred_cleared people slots avail.now owners.old }
{
    for k in 0..slots {
        owners[k] = left_to(people, avail, owners[k], k);
    }
}

// Whether each slot of a unit has the owner of its first slot: asked of that unit alone.
fn is_even(slots: usize, units: usize, begins: &[u16], owners: &[u8], unit: usize) -> bool
    requires { unit < length begins.now }
    ensures { result ≡ even_at slots units begins.now owners.now unit }
{
    let e = units::unit_end(slots, units, begins, unit);
    owners::first_uneven(e, 1, &begins[unit..], owners) == 1
}

// Step 2: each unit that has not one owner is cleared whole.
pub(crate) fn clear_uneven(slots: usize, units: usize, begins: &[u16], owners: &mut [u8])
    requires { units_ok slots units begins.now ≡ true }
    ensures { owners.new ≡ uneven_cleared slots units begins.now owners.old units }
{
    for u in 0..units {
        if !is_even(slots, units, begins, owners, u) {
            let a = units::start_of(begins, u);
            let e = units::unit_end(slots, units, begins, u);
            owners::fill_owners(owners, a, e, paper::NOBODY);
        }
    }
}
