// The owner records of a job: who owns which slot, as written, with refusals 10 and 11.
ghost use Rattle.std.specs.Prelude.{◌≡◌, ◌+◌, ◌*◌, ◌≤◌, length, get_or};
ghost use Rattle.paper.specs.Rows.{refusal_of};
ghost use Rattle.owners.specs.Recount.{even_at};
ghost use Rattle.job.specs.File.{owner_slot};
ghost use Rattle.job.specs.Stages.{owner_value, placed, uneven_in, record_known, all_known, narrowed};
ghost use Rattle.job.specs.Inside.{owners_row, OwnersAs};

use crate::fields::field;
use paper::Refusal;

// Entry k of a column, or 0 past its end.
fn entry16(column: &[u16], k: usize) -> u16
    ensures { result ≡ get_or column.now k 0 }
{
    if k < column.len() {
        return column[k];
    }
    0
}

// The slot that owner record k names, of those that begin at `at`.
pub(crate) fn owner_slot(s: &[u8], at: usize, k: usize) -> usize
    requires { at + k * 8 + 8 ≤ length s.now }
    ensures { result ≡ owner_slot s.now at k }
{
    field(s, at + k * 8 + 4, 2) as usize
}

// The owner that it gives.
fn owner_value(s: &[u8], at: usize, k: usize) -> u16
    requires { at + k * 8 + 8 ≤ length s.now }
    ensures { result ≡ owner_value s.now at k }
{
    field(s, at + k * 8 + 6, 2) as u16
}

// The owners that n records from `at` on give, 255 where none does.
fn placed_by(s: &[u8], at: usize, n: usize, slots: usize) -> [u16; 1024]
    requires { (at + n * 8 ≤ length s.now) × (slots ≤ 1024) }
    ensures { result ≡ placed s.now at slots n }
{
    let mut out = [255u16; 1024];
    for k in 0..n {
        let slot = owner_slot(s, at, k);
        let owner = owner_value(s, at, k);
        if slot < slots {
            out[slot] = owner;
        }
    }
    out
}

// Whether the slots of unit u have one owner.
fn unit_even(slots: usize, units: usize, begins: &[u16], owners: &[u16], u: usize) -> bool
    ensures { result ≡ even_at slots units begins.now owners.now u }
{
    let a = units::start_of(begins, u);
    let e = units::unit_end(slots, units, begins, u);
    let owner = entry16(owners, a);
    for k in a..e {
        if entry16(owners, k) != owner {
            return false;
        }
    }
    true
}

// The lowest unit whose slots don't, or the number of units.
fn first_uneven(slots: usize, units: usize, begins: &[u16], owners: &[u16]) -> usize
    ensures { result ≡ uneven_in slots units begins.now owners.now }
{
    for u in 0..units {
        if !unit_even(slots, units, begins, owners, u) {
            return u;
        }
    }
    units
}

// Whether record k names a slot that exists, and nobody or a known person.
fn record_known(s: &[u8], at: usize, slots: usize, people: usize, k: usize) -> bool
    requires { at + k * 8 + 8 ≤ length s.now }
    ensures { result ≡ record_known s.now at slots people k }
{
    let slot = owner_slot(s, at, k);
    let owner = owner_value(s, at, k) as usize;
    if slot < slots {
        if owner == 255 {
            return true;
        }
        return owner < people;
    }
    false
}

// Whether each of n records does.
fn all_known(s: &[u8], at: usize, n: usize, slots: usize, people: usize) -> bool
    requires { at + n * 8 ≤ length s.now }
    ensures { result ≡ all_known s.now at n slots people }
{
    for k in 0..n {
        if !record_known(s, at, slots, people, k) {
            return false;
        }
    }
    true
}

// 10, then 11; even: each unit has one owner, and `uneven` is the lowest that has two.
fn owners_refusal(
    s: &[u8],
    at: usize,
    n: usize,
    slots: usize,
    people: usize,
    even: bool,
    uneven: usize,
) -> Refusal
    requires { at + n * 8 ≤ length s.now }
    ensures { result ≡ refusal_of (owners_row s.now at n slots people even uneven) }
{
    let known = all_known(s, at, n, slots, people);
    let f = paper::check_in(paper::accepted(), even, 10, 3, uneven, 0);
    paper::check(f, known, 11)
}

// The owners as bytes.
fn narrow(owners: &[u16]) -> [u8; 1024]
    ensures { result ≡ narrowed owners.now }
{
    let mut out = [0u8; 1024];
    for k in 0..paper::SLOTS_MOST {
        let owner = entry16(owners, k);
        if owner < 256 {
            out[k] = owner as u8;
        } else {
            out[k] = paper::NOBODY;
        }
    }
    out
}

// The owners as bytes, with refusals 10 and 11.
pub(crate) fn owners_of(
    s: &[u8],
    at: usize,
    n: usize,
    slots: usize,
    people: usize,
    units: usize,
    begins: &[u16],
) -> Result<[u8; 1024], Refusal>
    requires { (at + n * 8 ≤ length s.now) × (slots ≤ 1024) }
    ensures { OwnersAs s.now at n slots people units begins.now result }
{
    let written = placed_by(s, at, n, slots);
    let uneven = first_uneven(slots, units, begins, &written);
    let refusal = owners_refusal(s, at, n, slots, people, uneven == units, uneven);
    if refusal.number != 0 {
        return Err(refusal);
    }
    Ok(narrow(&written))
}
