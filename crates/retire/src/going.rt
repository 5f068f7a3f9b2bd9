// How much goes: the leading units of which every slot is frozen.
ghost use Rattle.std.specs.Prelude.{◌≡◌};
ghost use Rattle.paper.specs.Count.{all_in};
ghost use Rattle.retire.specs.Going.{is_frozen, frozen_whole, gone_units, start_from};

use slotset::bit;

// Whether a slot is frozen.
fn is_frozen(frozen: &[u64], slot: usize) -> bool
    ensures { result ≡ is_frozen frozen.now slot }
{
    bit::holds(frozen, 0, slot)
}

// Whether every slot from a up to e is.
fn all_frozen(frozen: &[u64], a: usize, e: usize) -> bool
    ensures { result ≡ all_in a e (is_frozen frozen.now) }
{
    for k in a..e {
        if !is_frozen(frozen, k) {
            return false;
        }
    }
    true
}

// Whether every slot of a unit is.
fn frozen_whole(slots: usize, units: usize, begins: &[u16], frozen: &[u64], unit: usize) -> bool
    ensures { result ≡ frozen_whole slots units begins.now frozen.now unit }
{
    let a = units::start_of(begins, unit);
    let e = units::unit_end(slots, units, begins, unit);
    all_frozen(frozen, a, e)
}

// How many units go: up to the first that is not frozen whole.
pub(crate) fn gone_units(slots: usize, units: usize, begins: &[u16], frozen: &[u64]) -> usize
    ensures { result ≡ gone_units slots units begins.now frozen.now }
{
    for u in 0..units {
        if !frozen_whole(slots, units, begins, frozen, u) {
            return u;
        }
    }
    units
}

// Where a unit starts; past the last unit, the slot count.
pub(crate) fn start_from(slots: usize, units: usize, begins: &[u16], unit: usize) -> usize
    ensures { result ≡ start_from slots units begins.now unit }
{
    if unit < units {
        units::start_of(begins, unit)
    } else {
        slots
    }
}
