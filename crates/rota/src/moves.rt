// The five moves: each judges a draw and says what to do; nothing is written here.
ghost use Rattle.std.specs.Prelude.{◌≡◌, true, not, ◌&&◌, ◌||◌, suc, ◌+◌, ◌-◌, ◌<◌, ◌≤◌, eqb, length, get_or};
ghost use Rattle.paper.specs.Count.{all, all_in, among};
ghost use Rattle.units.specs.Units.{unit_start, unit_end};
ghost use Rattle.rota.specs.Board.{run_start, run_end};
ghost use Rattle.units.specs.Domains.{in_mask};
ghost use Rattle.rota.specs.Ready.{ready, fits_by, frozen_by, Cover, runs_fit, OwnerRoom};
ghost use Rattle.rota.specs.Moves.{draw, picked, reassigned, swapped, run_reassigned, runs_swapped, grown, shrunk, shifted, decided};
ghost use Rattle.rota.specs.Moves.{any_of, swap_stays};

use crate::{Move, Pick};

// The owner of a unit: that of its first slot.
fn owner_of(begins: &[u16], owners: &[u8], unit: usize) -> u8
    ensures { result ≡ get_or owners.now (unit_start begins.now unit) 0 }
{
    let slot = units::start_of(begins, unit);
    if slot < owners.len() { owners[slot] } else { 0 }
}

// Whether a unit is frozen.
fn is_frozen(flags: &[u8], unit: usize) -> bool
    ensures { result ≡ frozen_by flags.now unit }
{
    unit < flags.len() && flags[unit] == 1
}

// Whether a person stands in a mask.
pub(crate) fn in_mask(mask: u32, person: usize) -> bool
    ensures { result ≡ in_mask mask person }
{
    person < 32 && (mask >> person) % 2 == 1
}

// The people who fit a unit.
fn mask_of(fits: &[u32], unit: usize) -> u32
    ensures { result ≡ get_or fits.now unit 0 }
{
    if unit < fits.len() { fits[unit] } else { 0 }
}

// Whether a person fits a unit.
fn fits_unit(fits: &[u32], person: u8, unit: usize) -> bool
    ensures { result ≡ fits_by fits.now person unit }
{
    in_mask(mask_of(fits, unit), person as usize)
}

// The owner of a unit whose start, and the owner there, are known to be lent: nothing is tested.
fn owner_at(begins: &[u16], owners: &[u8], unit: usize) -> u8
    requires { (unit < length begins.now) × (unit_start begins.now unit < length owners.now) }
    ensures { result ≡ get_or owners.now (unit_start begins.now unit) 0 }
{
    owners[begins[unit] as usize]
}

// The first unit of a unit's run: the n units before it have its owner. A range that is walked down costs twice as much a unit.
fn run_start(begins: &[u16], owners: &[u8], unit: usize) -> usize
    requires { OwnerRoom (suc unit) begins.now owners.now }
    ensures { result ≡ run_start (λ u. get_or owners.now (unit_start begins.now u) 0) unit }
{
    let owner = owner_at(begins, owners, unit);
    for n in 0..unit {
        if owner_at(begins, owners, unit - n - 1) != owner {
            return unit - n;
        }
    }
    0
}

// The last unit of a unit's run: the units after this one up to it have its owner.
fn run_end(units: usize, begins: &[u16], owners: &[u8], unit: usize) -> usize
    requires unit_lt_units { unit < units }
    requires owner_room { OwnerRoom units begins.now owners.now }
    ensures { result ≡ run_end units (λ u. get_or owners.now (unit_start begins.now u) 0) unit }
{
    let owner = owner_at(begins, owners, unit);
    for u in unit + 1..units {
        if owner_at(begins, owners, u) != owner {
            return u - 1;
        }
    }
    units - 1
}

// Whether no unit from a up to e is frozen. All of them are read: a loop that leaves early reads one at a time.
fn is_movable(flags: &[u8], a: usize, e: usize) -> bool
    requires { (a ≤ e) × (e ≤ length flags.now) }
    ensures { result ≡ all_in a e (λ u. not (frozen_by flags.now u)) }
{
    let mut movable = true;
    for u in a..e {
        if flags[u] == 1 {
            movable = false;
        }
    }
    movable
}

// The people who fit every unit from a up to e.
fn cover_of(fits: &[u32], a: usize, e: usize) -> u32
    requires { (a ≤ e) × (e ≤ length fits.now) }
    ensures { Cover fits.now a e result }
{
    let mut mask = !0u32;
    for u in a..e {
        mask &= fits[u];
    }
    mask
}

// Whether a person fits every unit from a up to e.
fn fits_all(fits: &[u32], a: usize, e: usize, person: u8) -> bool
    requires { (a < e) × (e ≤ length fits.now) }
    ensures { result ≡ all_in a e (fits_by fits.now person) }
{
    in_mask(cover_of(fits, a, e), person as usize)
}

// k where the first k people all stand in a mask, else 0: those need not be counted one by one.
fn all_first(mask: u32, people: usize, k: usize) -> usize
    requires { people ≤ 32 }
    ensures { (result ≤ people) × (result ≤ k) × (all result (in_mask mask) ≡ true) }
{
    if k < people {
        let bound = 1u32 << k;
        if mask % bound == bound - 1 {
            return k;
        }
        return 0;
    }
    0
}

// The nth person of a mask, ascending, `skip` left out. Counting starts past those that all stand in it.
fn nth_of(mask: u32, people: usize, skip: u8, nth: usize) -> Pick
    requires { people ≤ 32 }
    ensures { result ≡ picked (among (λ p. not (eqb p skip) && in_mask mask p) people) nth }
{
    let from = all_first(mask, people, nth.min(skip as usize));
    let mut seen = from;
    for p in from..people {
        if is_other(mask, skip, p) {
            if seen == nth {
                return Pick::Person(p as u8);
            }
            seen += 1;
        }
    }
    if seen == 0 {
        return Pick::Nobody;
    }
    Pick::Beyond
}

// Whether a person stands in a mask and is not `skip`.
fn is_other(mask: u32, skip: u8, person: usize) -> bool
    requires { person < 32 }
    ensures { result ≡ not (eqb person skip) && in_mask mask person }
{
    person != skip as usize && (mask >> person) % 2 == 1
}

// Units a to b, both included, to a person.
fn give(slots: usize, units: usize, begins: &[u16], a: usize, b: usize, to: u8) -> Move
    ensures { result ≡ Move.Give (unit_start begins.now a) (unit_end slots units begins.now b) to }
{
    Move::Give {
        from: units::start_of(begins, a),
        upto: units::unit_end(slots, units, begins, b),
        to,
    }
}

// Units a to b to a person, and units c to d to another.
fn trade(
    slots: usize,
    units: usize,
    begins: &[u16],
    a: usize,
    b: usize,
    to: u8,
    c: usize,
    d: usize,
    to2: u8,
) -> Move
    ensures { result ≡ Move.Trade (unit_start begins.now a) (unit_end slots units begins.now b) to (unit_start
        begins.now c) (unit_end slots units begins.now d) to2 }
{
    Move::Trade {
        from: units::start_of(begins, a),
        upto: units::unit_end(slots, units, begins, b),
        to,
        from2: units::start_of(begins, c),
        upto2: units::unit_end(slots, units, begins, d),
        to2,
    }
}

// 0 to 34: the unit to one of those who fit it.
fn reassign(
    people: usize,
    slots: usize,
    units: usize,
    begins: &[u16],
    fits: &[u32],
    flags: &[u8],
    owners: &[u8],
    first: usize,
    second: usize,
) -> Move
    requires { people ≤ 32 }
    ensures { result ≡ reassigned (ready people slots units begins.now fits.now flags.now) owners.now first second }
{
    if is_frozen(flags, first) {
        return Move::Stay(1);
    }
    match nth_of(mask_of(fits, first), people, paper::NOBODY, second) {
        Pick::Nobody => Move::Stay(1),
        Pick::Beyond => Move::Stay(2),
        Pick::Person(p) => {
            if p == owner_of(begins, owners, first) {
                Move::Stay(1)
            } else {
                give(slots, units, begins, first, first, p)
            }
        }
    }
}

// Whether two units keep their owners.
fn swap_stays(
    people: usize,
    slots: usize,
    units: usize,
    begins: &[u16],
    fits: &[u32],
    flags: &[u8],
    owners: &[u8],
    first: usize,
    second: usize,
) -> bool
    ensures { result ≡ any_of (swap_stays (ready people slots units begins.now fits.now flags.now) owners.now first second) }
{
    let left = owner_of(begins, owners, first);
    let right = owner_of(begins, owners, second);
    // `|` has no branch, so the proof has one path
    is_frozen(flags, first)
        | is_frozen(flags, second)
        | (first == second)
        | (left == paper::NOBODY)
        | (right == paper::NOBODY)
        | (left == right)
        | !fits_unit(fits, right, first)
        | !fits_unit(fits, left, second)
}

// 35 to 59: two units change owners.
fn swap_units(
    people: usize,
    slots: usize,
    units: usize,
    begins: &[u16],
    fits: &[u32],
    flags: &[u8],
    owners: &[u8],
    first: usize,
    second: usize,
) -> Move
    ensures { result ≡ swapped (ready people slots units begins.now fits.now flags.now) owners.now first second }
{
    let left = owner_of(begins, owners, first);
    let right = owner_of(begins, owners, second);
    if swap_stays(
        people, slots, units, begins, fits, flags, owners, first, second,
    ) {
        return Move::Stay(1);
    }
    trade(
        slots, units, begins, first, first, right, second, second, left,
    )
}

// 60 to 74: the run of a unit to somebody else who fits it all.
fn reassign_run(
    people: usize,
    slots: usize,
    units: usize,
    begins: &[u16],
    fits: &[u32],
    flags: &[u8],
    owners: &[u8],
    first: usize,
    second: usize,
) -> Move
    requires people_bound { (people ≤ 32) × (first < units) }
    requires owner_room { OwnerRoom units begins.now owners.now }
    requires units_in_bounds { (units ≤ length fits.now) × (units ≤ length flags.now) }
    ensures { result ≡ run_reassigned (ready people slots units begins.now fits.now flags.now)
        owners.now first second }
{
    let owner = owner_of(begins, owners, first);
    if is_frozen(flags, first) {
        return Move::Stay(1);
    }
    if owner == paper::NOBODY {
        return Move::Stay(1);
    }
    let a = run_start(begins, owners, first);
    let b = run_end(units, begins, owners, first);
    if is_movable(flags, a, b + 1) {
        match nth_of(cover_of(fits, a, b + 1), people, owner, second) {
            Pick::Nobody => Move::Stay(1),
            Pick::Beyond => Move::Stay(2),
            Pick::Person(p) => give(slots, units, begins, a, b, p),
        }
    } else {
        Move::Stay(1)
    }
}

// 75 to 89: the runs of two units change owners.
fn swap_runs(
    people: usize,
    slots: usize,
    units: usize,
    begins: &[u16],
    fits: &[u32],
    flags: &[u8],
    owners: &[u8],
    first: usize,
    second: usize,
) -> Move
    requires first_lt_units { (first < units) × (second < units) }
    requires owner_room { OwnerRoom units begins.now owners.now }
    requires units_in_bounds { (units ≤ length fits.now) × (units ≤ length flags.now) }
    ensures { result ≡ runs_swapped (ready people slots units begins.now fits.now flags.now) owners.now first second }
{
    let left = owner_of(begins, owners, first);
    let right = owner_of(begins, owners, second);
    if is_frozen(flags, first) {
        return Move::Stay(1);
    }
    if is_frozen(flags, second) {
        return Move::Stay(1);
    }
    if left == paper::NOBODY {
        return Move::Stay(1);
    }
    if right == paper::NOBODY {
        return Move::Stay(1);
    }
    if left == right {
        return Move::Stay(1);
    }
    let a = run_start(begins, owners, first);
    let b = run_end(units, begins, owners, first);
    let c = run_start(begins, owners, second);
    let d = run_end(units, begins, owners, second);
    if a == c {
        return Move::Stay(1);
    }
    if runs_fit(fits, flags, a, b + 1, right, c, d + 1, left) {
        return trade(slots, units, begins, a, b, right, c, d, left);
    }
    Move::Stay(1)
}

// Whether no unit from a up to e, nor from c up to g, is frozen, and each of two people fits the units that they would get.
fn runs_fit(
    fits: &[u32],
    flags: &[u8],
    a: usize,
    e: usize,
    to: u8,
    c: usize,
    g: usize,
    to2: u8,
) -> bool
    requires a_lt_e { (a < e) × (c < g) }
    requires e_in_bounds { (e ≤ length fits.now) × (g ≤ length fits.now) × (e ≤ length flags.now) × (g ≤ length flags.now) }
    ensures { result ≡ runs_fit fits.now flags.now a e to c g to2 }
{
    is_movable(flags, a, e)
        && (is_movable(flags, c, g) && (fits_all(fits, a, e, to) && fits_all(fits, c, g, to2)))
}

// Second 1: the owner of a run that starts at unit a gets the unit before it.
fn grow(
    people: usize,
    slots: usize,
    units: usize,
    begins: &[u16],
    fits: &[u32],
    flags: &[u8],
    owner: u8,
    a: usize,
) -> Move
    ensures { result ≡ grown (ready people slots units begins.now fits.now flags.now) owner a }
{
    if a == 0 {
        return Move::Stay(1);
    }
    let before = a - 1;
    if is_frozen(flags, before) {
        return Move::Stay(1);
    }
    if fits_unit(fits, owner, before) {
        return give(slots, units, begins, before, before, owner);
    }
    Move::Stay(1)
}

// Second 0: the first unit of a run from a to b goes to the owner of the unit before it.
fn shrink(
    people: usize,
    slots: usize,
    units: usize,
    begins: &[u16],
    fits: &[u32],
    flags: &[u8],
    owners: &[u8],
    a: usize,
    b: usize,
) -> Move
    ensures { result ≡ shrunk (ready people slots units begins.now fits.now flags.now) owners.now a b }
{
    if a == 0 {
        return Move::Stay(1);
    }
    if a == b {
        return Move::Stay(1);
    }
    let owner = owner_of(begins, owners, a - 1);
    if owner == paper::NOBODY {
        return Move::Stay(1);
    }
    if is_frozen(flags, a) {
        return Move::Stay(1);
    }
    if fits_unit(fits, owner, a) {
        return give(slots, units, begins, a, a, owner);
    }
    Move::Stay(1)
}

// 90 to 99: the boundary before a unit's run moves by one unit.
fn shift_boundary(
    people: usize,
    slots: usize,
    units: usize,
    begins: &[u16],
    fits: &[u32],
    flags: &[u8],
    owners: &[u8],
    first: usize,
    second: usize,
) -> Move
    requires first_lt_units { first < units }
    requires owner_room { OwnerRoom units begins.now owners.now }
    ensures { result ≡ shifted (ready people slots units begins.now fits.now flags.now) owners.now first second }
{
    let owner = owner_of(begins, owners, first);
    if is_frozen(flags, first) {
        return Move::Stay(1);
    }
    if owner == paper::NOBODY {
        return Move::Stay(1);
    }
    if 1 < second {
        return Move::Stay(2);
    }
    let a = run_start(begins, owners, first);
    if second == 1 {
        return grow(people, slots, units, begins, fits, flags, owner, a);
    }
    let b = run_end(units, begins, owners, first);
    shrink(people, slots, units, begins, fits, flags, owners, a, b)
}

// What a draw does. The draw, then the units that it names, are judged before all else.
pub(crate) fn decide(
    people: usize,
    slots: usize,
    units: usize,
    begins: &[u16],
    fits: &[u32],
    flags: &[u8],
    owners: &[u8],
    kind: u16,
    first: u16,
    second: u16,
) -> Move
    requires people_bound { people ≤ 32 }
    requires owner_room { OwnerRoom units begins.now owners.now }
    requires units_in_bounds { (units ≤ length fits.now) × (units ≤ length flags.now) }
    ensures { result ≡ decided (ready people slots units begins.now fits.now flags.now) owners.now (draw kind first second) }
{
    let f = first as usize;
    let s = second as usize;
    if 100 <= kind {
        return Move::Stay(2);
    }
    if units <= f {
        return Move::Stay(2);
    }
    if kind < 35 {
        return reassign(people, slots, units, begins, fits, flags, owners, f, s);
    }
    if kind < 60 {
        if units <= s {
            return Move::Stay(2);
        }
        return swap_units(people, slots, units, begins, fits, flags, owners, f, s);
    }
    if kind < 75 {
        return reassign_run(people, slots, units, begins, fits, flags, owners, f, s);
    }
    if kind < 90 {
        if units <= s {
            return Move::Stay(2);
        }
        return swap_runs(people, slots, units, begins, fits, flags, owners, f, s);
    }
    shift_boundary(people, slots, units, begins, fits, flags, owners, f, s)
}
