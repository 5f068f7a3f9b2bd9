// Tests that the rows of several entries ask: what a rota is lent in (1, 2 and 9), and its owners.
ghost use Rattle.std.specs.Prelude.{◌≡◌};
ghost use Rattle.paper.specs.Limits.{test};
ghost use Rattle.paper.specs.Rows.{refusal_of, next};
ghost use Rattle.paper.specs.Count.{all};
ghost use Rattle.owners.specs.Derived.{plan, derived};
ghost use Rattle.owners.specs.Recount.{known_at, available_at};
ghost use Rattle.owners.specs.Entries.{lent_row};

use crate::scan::{first_unavailable, first_unknown};
use paper::Refusal;

// What is wrong with what a rota is lent in: 1, 2 or 9. `counts` and `room` are the caller's own tests of rules 1 and 2.
pub(crate) fn lent_refusal(
    counts: bool,
    room: bool,
    people: usize,
    slots: usize,
    starts: &[u32],
    ends: &[u32],
    avail: &[u64],
    owners: &[u8],
    sets: &[u64],
    minutes: &[u64],
    totals: &[u64],
) -> Refusal
    ensures { result ≡ refusal_of (lent_row counts room (plan people slots starts.now ends.now) avail.now owners.now
        (derived sets.now minutes.now totals.now)) }
{
    let f = paper::check_people(paper::accepted(), people);
    let f = paper::check_slots(f, slots);
    let f = paper::check(f, counts, 1);
    let f = slots::check_room(f, slots, starts, ends);
    let f = paper::check_words(f, people, avail);
    let f = paper::check(f, slots <= owners.len(), 2);
    let f = paper::check_words(f, people, sets);
    let f = paper::check(f, people <= minutes.len(), 2);
    let f = paper::check(f, 2 <= totals.len(), 2);
    let f = paper::check(f, room, 2);
    slots::check_order(f, slots, starts, ends, 9)
}

// Rule 11 of owners: each is known. Where a test failed before, they are not walked.
pub(crate) fn check_known(before: Refusal, people: usize, slots: usize, owners: &[u8]) -> Refusal
    ensures { result ≡ next before (test 11 (all slots (known_at people owners.now))) }
{
    if before.number == 0 {
        return paper::check(before, first_unknown(people, slots, owners) == slots, 11);
    }
    before
}

// Rule 12 of owners: each is available.
pub(crate) fn check_available(
    before: Refusal,
    slots: usize,
    avail: &[u64],
    owners: &[u8],
) -> Refusal
    ensures { result ≡ next before (test 12 (all slots (available_at avail.now owners.now))) }
{
    if before.number == 0 {
        return paper::check(before, first_unavailable(slots, avail, owners) == slots, 12);
    }
    before
}
