// The last two rules: no shift past the cap, none too soon after an earlier one of its owner. Each is one walk over the slots.
ghost use Rattle.std.specs.Prelude.{◌≡◌, ◌<◌};
ghost use Rattle.slots.specs.Lent.{SlotsSound};
ghost use Rattle.usable.specs.Rules.{capped_at, rested_at};
ghost use Rattle.usable.specs.Inside.{opens_by_owners, goes_on, end_from, capped_by, rested_by, fault};

use owners::owner_at;
use slots::entry_of;

// Whether slot k is the first of a shift.
#[tactic(auto, unfolding(crate::specs::Inside::opens_by_owners))]
fn opens(owners: &[u8], k: usize) -> bool
    ensures { result ≡ opens_by_owners owners.now k }
{
    let owner = owner_at(owners, k);
    owner != paper::NOBODY && (k == 0 || owner_at(owners, k - 1) != owner)
}

// Whether the slot after slot k has its owner.
#[tactic(auto, unfolding(crate::specs::Inside::goes_on))]
fn goes_on(slots: usize, owners: &[u8], k: usize) -> bool
    requires { k < slots }
    ensures { result ≡ goes_on slots owners.now k }
{
    k + 1 < slots && owner_at(owners, k + 1) == owner_at(owners, k)
}

// Where the shift of slot k ends, if that of the slot after it ends at `next`.
#[tactic(auto, unfolding(crate::specs::Inside::end_from))]
fn shift_end(slots: usize, ends: &[u32], owners: &[u8], k: usize, next: u32) -> u32
    requires { k < slots }
    ensures { result ≡ end_from slots ends.now owners.now k next }
{
    if goes_on(slots, owners, k) {
        return next;
    }
    entry_of(ends, k)
}

// Whether a shift that opens at slot k and ends at `end` is within the cap.
#[tactic(auto, unfolding(crate::specs::Inside::capped_by))]
fn is_capped(cap: u32, starts: &[u32], owners: &[u8], k: usize, end: u32) -> bool
    ensures { result ≡ capped_by cap starts.now owners.now k end }
{
    if opens(owners, k) {
        return end as u64 <= entry_of(starts, k) as u64 + cap as u64;
    }
    true
}

// The first slot of the first shift that is longer than the cap, if there is one. From the last slot down, so that a shift's end is known.
pub(crate) fn first_long(
    slots: usize,
    cap: u32,
    starts: &[u32],
    ends: &[u32],
    owners: &[u8],
) -> Option<usize>
    ensures { result ≡ fault slots (capped_at slots cap starts.now ends.now owners.now) }
{
    let mut found = None;
    let mut end: u32 = 0;
    for k in (0..slots).rev() {
        end = shift_end(slots, ends, owners, k, end);
        if !is_capped(cap, starts, owners, k, end) {
            found = Some(k);
        }
    }
    found
}

// Whether slot k opens no shift, or one that starts no sooner than `free`.
#[tactic(auto, unfolding(crate::specs::Inside::rested_by))]
fn is_rested(starts: &[u32], owners: &[u8], k: usize, free: u64) -> bool
    ensures { result ≡ rested_by starts.now owners.now k free }
{
    if opens(owners, k) {
        return free <= entry_of(starts, k) as u64;
    }
    true
}

// The first slot of the first shift that comes too soon, if there is one. For each owner it keeps from when on they may start again.
pub(crate) fn first_close(
    slots: usize,
    rest: u32,
    starts: &[u32],
    ends: &[u32],
    owners: &[u8],
) -> Option<usize>
    requires { SlotsSound slots starts.now ends.now }
    ensures { result ≡ fault slots (rested_at slots rest starts.now ends.now owners.now) }
{
    let mut free = [0u64; 256];
    for k in 0..slots {
        let owner = owner_at(owners, k) as usize;
        if !is_rested(starts, owners, k, free[owner]) {
            return Some(k);
        }
        free[owner] = entry_of(ends, k) as u64 + rest as u64;
    }
    None
}
