// Whether a rota made elsewhere may be used: the refusals, then the five rules in their order.
ghost use Rattle.std.specs.Prelude.{◌≡◌};
ghost use Rattle.paper.specs.Rows.{refusal_of, next};
ghost use Rattle.paper.specs.Limits.{test};
ghost use Rattle.slots.specs.Lent.{SlotsSound};
ghost use Rattle.usable.specs.Broken.{brought};
ghost use Rattle.usable.specs.Answers.{figures_ok, usable_row, judged, verdict_is};
ghost use Rattle.usable.specs.Inside.{ByUnit};

use crate::Verdict;
use crate::rules::{first_barred, first_moved, first_uneven};
use crate::shifts::{first_close, first_long};
use paper::Refusal;

// Rule 7 of cap and rest.
#[tactic(auto, unfolding(crate::specs::Answers::figures_ok))]
fn figures_ok(cap: u32, rest: u32) -> bool
    ensures { result ≡ figures_ok cap rest }
{
    1 <= cap && cap <= paper::LAST_MINUTE && rest <= paper::LAST_MINUTE
}

// What stands against judging it: 1, 2, 7 or 9.
fn usable_refusal(
    people: usize,
    slots: usize,
    units: usize,
    cap: u32,
    rest: u32,
    starts: &[u32],
    ends: &[u32],
    avail: &[u64],
    begins: &[u16],
    frozen: &[u64],
    published: &[u8],
    owners: &[u8],
) -> Refusal
    ensures { result ≡ refusal_of (usable_row (brought people slots units cap rest starts.now ends.now avail.now begins.now frozen.now published.now owners.now)) }
{
    let f = paper::check_people(paper::accepted(), people);
    let f = paper::check_slots(f, slots);
    let f = slots::check_room(f, slots, starts, ends);
    let f = paper::check_words(f, people, avail);
    let f = paper::check(f, units <= begins.len(), 2);
    let f = paper::check(f, paper::SET_WORDS <= frozen.len(), 2);
    let f = paper::check(f, slots <= published.len(), 2);
    let f = paper::check(f, slots <= owners.len(), 2);
    let f = paper::check(f, figures_ok(cap, rest), 7);
    let f = slots::check_order(f, slots, starts, ends, 9);
    units::check_units(f, slots, units, begins)
}

// The first broken rule and the lowest slot at which it shows.
fn first_broken(
    people: usize,
    slots: usize,
    units: usize,
    cap: u32,
    rest: u32,
    starts: &[u32],
    ends: &[u32],
    avail: &[u64],
    begins: &[u16],
    frozen: &[u64],
    published: &[u8],
    owners: &[u8],
) -> Verdict
    requires slots_sound { SlotsSound slots starts.now ends.now }
    requires by_unit { ByUnit slots units begins.now 0 0 }
    ensures { result ≡ judged (brought people slots units cap rest starts.now ends.now avail.now begins.now frozen.now published.now owners.now) }
{
    if let Some(slot) = first_barred(people, slots, avail, owners) {
        return Verdict::Broken { rule: 1, slot };
    }
    if let Some(slot) = first_moved(slots, frozen, published, owners) {
        return Verdict::Broken { rule: 2, slot };
    }
    if let Some(slot) = first_uneven(slots, units, begins, owners) {
        return Verdict::Broken { rule: 3, slot };
    }
    if let Some(slot) = first_long(slots, cap, starts, ends, owners) {
        return Verdict::Broken { rule: 4, slot };
    }
    if let Some(slot) = first_close(slots, rest, starts, ends, owners) {
        return Verdict::Broken { rule: 5, slot };
    }
    Verdict::Usable
}

// Whether a rota made elsewhere may be used; else the first broken rule and its lowest slot. Refusals 1, 2, 7, 9.
pub fn may_be_used(
    people: usize,
    slots: usize,
    units: usize,
    cap: u32,
    rest: u32,
    starts: &[u32],
    ends: &[u32],
    avail: &[u64],
    begins: &[u16],
    frozen: &[u64],
    published: &[u8],
    owners: &[u8],
) -> Result<Verdict, u8>
    ensures { result ≡ verdict_is (brought people slots units cap rest starts.now ends.now avail.now begins.now frozen.now published.now owners.now) }
{
    let n = usable_refusal(
        people, slots, units, cap, rest, starts, ends, avail, begins, frozen, published, owners,
    )
    .number;
    if n == 0 {
        return Ok(first_broken(
            people, slots, units, cap, rest, starts, ends, avail, begins, frozen, published, owners,
        ));
    }
    Err(n)
}
