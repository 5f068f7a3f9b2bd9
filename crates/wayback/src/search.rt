// The first unit that no reassign gives back: its owner differs, and nobody owned it or it is frozen.
ghost use Rattle.std.specs.Prelude.{◌≡◌, not, ◌≤◌, ◌<◌, length};
ghost use Rattle.owners.specs.Recount.{first_fail};
ghost use Rattle.rota.specs.Lent.{frozen_unit};
ghost use Rattle.rota.specs.Ready.{UnitRoom};
ghost use Rattle.wayback.specs.Inside.{found_one, unit_owner, stands_in_way};

// Whether a search found something, or was refused.
fn found_one(f: Result<Option<usize>, u8>) -> bool
    ensures { result ≡ found_one f }
{
    match f {
        Ok(Some(_)) => true,
        Ok(None) => false,
        Err(_) => true,
    }
}

// The owner of a unit: that of its first slot.
pub(crate) fn owner_of(begins: &[u16], owners: &[u8], unit: usize) -> u8
    ensures { result ≡ unit_owner begins.now owners.now unit }
{
    owners::owner_at(owners, units::start_of(begins, unit))
}

// Whether any slot of a unit is frozen.
fn is_frozen(slots: usize, units: usize, begins: &[u16], frozen: &[u64], unit: usize) -> bool
    requires slots_bound { (slots ≤ 1024) × (16 ≤ length frozen.now) × (unit < units) }
    requires unit_room { UnitRoom slots units begins.now }
    ensures { result ≡ frozen_unit slots units begins.now frozen.now unit }
{
    let a = units::start_of(begins, unit);
    let e = units::unit_end(slots, units, begins, unit);
    found_one(slotset::row::next_set(1, e, frozen, 0, a))
}

// Whether a unit stands in the way.
fn stands_in_way(
    slots: usize,
    units: usize,
    begins: &[u16],
    frozen: &[u64],
    remembered: &[u8],
    owners: &[u8],
    unit: usize,
) -> bool
    requires slots_bound { (slots ≤ 1024) × (16 ≤ length frozen.now) × (unit < units) }
    requires unit_room { UnitRoom slots units begins.now }
    ensures { result ≡ stands_in_way slots units begins.now frozen.now remembered.now owners.now unit }
{
    let was = owner_of(begins, remembered, unit);
    if was == owner_of(begins, owners, unit) {
        return false;
    }
    if was == paper::NOBODY {
        return true;
    }
    is_frozen(slots, units, begins, frozen, unit)
}

// The first unit in the way, or the unit count.
pub(crate) fn first_in_way(
    slots: usize,
    units: usize,
    begins: &[u16],
    frozen: &[u64],
    remembered: &[u8],
    owners: &[u8],
) -> usize
    requires slots_bound { (slots ≤ 1024) × (16 ≤ length frozen.now) }
    requires unit_room { UnitRoom slots units begins.now }
    ensures { result ≡ first_fail units (λ u. not (stands_in_way slots units begins.now frozen.now remembered.now owners.now u)) }
{
    for u in 0..units {
        if stands_in_way(slots, units, begins, frozen, remembered, owners, u) {
            return u;
        }
    }
    units
}
