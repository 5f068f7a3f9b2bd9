// The first three rules: owners known and available, frozen slots as published, units uniform. Each is one walk over the slots.
ghost use Rattle.std.specs.Prelude.{◌≡◌, ◌<◌};
ghost use Rattle.units.specs.Units.{InUnit};
ghost use Rattle.usable.specs.Rules.{allowed_at, published_at, uniform_at};
ghost use Rattle.usable.specs.Inside.{ByUnit, fault};

use owners::{available_for, known_by, owner_at};
use slotset::bit::holds;

// Whether the owner of slot k is known and available for it; nobody is.
#[tactic(auto, unfolding(crate::specs::Rules::allowed_at, owners::specs::Recount::known_at, owners::specs::Recount::available_at))]
fn is_allowed(people: usize, avail: &[u64], owners: &[u8], k: usize) -> bool
    ensures { result ≡ allowed_at people avail.now owners.now k }
{
    let owner = owner_at(owners, k);
    known_by(people, owner) && available_for(avail, owner, k)
}

// The first slot whose owner is unknown or not available for it, if there is one.
pub(crate) fn first_barred(
    people: usize,
    slots: usize,
    avail: &[u64],
    owners: &[u8],
) -> Option<usize>
    ensures { result ≡ fault slots (allowed_at people avail.now owners.now) }
{
    for k in 0..slots {
        if !is_allowed(people, avail, owners, k) {
            return Some(k);
        }
    }
    None
}

// Whether slot k is not frozen, or has its published owner.
#[tactic(auto, unfolding(crate::specs::Rules::published_at, units::specs::Domains::unfrozen))]
fn is_published(frozen: &[u64], published: &[u8], owners: &[u8], k: usize) -> bool
    ensures { result ≡ published_at frozen.now published.now owners.now k }
{
    if holds(frozen, 0, k) {
        return owner_at(owners, k) == owner_at(published, k);
    }
    true
}

// The first frozen slot that has another owner than the published one, if there is one.
pub(crate) fn first_moved(
    slots: usize,
    frozen: &[u64],
    published: &[u8],
    owners: &[u8],
) -> Option<usize>
    ensures { result ≡ fault slots (published_at frozen.now published.now owners.now) }
{
    for k in 0..slots {
        if !is_published(frozen, published, owners, k) {
            return Some(k);
        }
    }
    None
}

// The unit of slot k, which is in unit u or just behind it.
fn unit_at(slots: usize, units: usize, begins: &[u16], u: usize, k: usize) -> usize
    requires by_unit { ByUnit slots units begins.now u k }
    requires k_lt_slots { k < slots }
    ensures { InUnit slots units begins.now k result }
{
    if k < units::unit_end(slots, units, begins, u) {
        return u;
    }
    u + 1
}

// The first slot that has another owner than the first slot of its unit, if there is one.
pub(crate) fn first_uneven(
    slots: usize,
    units: usize,
    begins: &[u16],
    owners: &[u8],
) -> Option<usize>
    requires { ByUnit slots units begins.now 0 0 }
    ensures { result ≡ fault slots (uniform_at units begins.now owners.now) }
{
    let mut u: usize = 0;
    for k in 0..slots {
        u = unit_at(slots, units, begins, u, k);
        if owner_at(owners, k) != owner_at(owners, units::start_of(begins, u)) {
            return Some(k);
        }
    }
    None
}
