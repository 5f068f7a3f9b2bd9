// The checks that come before the work: rules 1, 2, 6, 7 and 9.
ghost use Rattle.std.specs.Prelude.{◌≡◌};
ghost use Rattle.paper.specs.Limits.{test};
ghost use Rattle.paper.specs.Rows.{refusal_of, next};
ghost use Rattle.targets.specs.Figures.{figures_ok, all_figures_ok};
ghost use Rattle.targets.specs.Outcome.{given};
ghost use Rattle.targets.specs.Inside.{checks_row};

use crate::Person;
use paper::Refusal;

// Whether a person's figures pass rule 6.
fn figures_ok(p: Person) -> bool
    ensures { result ≡ figures_ok p }
{
    0.0 <= p.capacity && p.capacity <= 1000.0 && p.prior <= paper::LAST_MINUTE
}

// Whether everybody's do; a column of capacities that is too short doesn't.
fn all_figures_ok(people: usize, capacities: &[f64], priors: &[u32]) -> bool
    ensures { result ≡ all_figures_ok people capacities.now priors.now }
{
    if capacities.len() < people {
        return false;
    }
    for i in 0..people {
        let p = Person {
            capacity: capacities[i],
            prior: slots::entry_of(priors, i),
        };
        if !figures_ok(p) {
            return false;
        }
    }
    true
}

// Rule 6 of everybody. Where a test failed before, nobody is asked.
fn check_figures(before: Refusal, people: usize, capacities: &[f64], priors: &[u32]) -> Refusal
    ensures { result ≡ next before (test 6 (all_figures_ok people capacities.now priors.now)) }
{
    if before.number == 0 {
        return paper::check(before, all_figures_ok(people, capacities, priors), 6);
    }
    before
}

// What stands against working out targets: 1, 2, 6, 7 or 9. 8 comes out of the work.
pub(crate) fn checks_refusal(
    people: usize,
    slots: usize,
    fairness: u8,
    edition: u8,
    starts: &[u32],
    ends: &[u32],
    avail: &[u64],
    capacities: &[f64],
    priors: &[u32],
    room: usize,
) -> Refusal
    ensures { result ≡ refusal_of (checks_row (given people slots starts.now ends.now avail.now
        capacities.now priors.now fairness edition) room) }
{
    let f = paper::check_people(paper::accepted(), people);
    let f = paper::check_slots(f, slots);
    let f = slots::check_room(f, slots, starts, ends);
    let f = paper::check_words(f, people, avail);
    let f = paper::check(f, people <= capacities.len(), 2);
    let f = paper::check(f, people <= priors.len(), 2);
    let f = paper::check(f, people <= room, 2);
    let f = check_figures(f, people, capacities, priors);
    let f = paper::check(f, fairness <= 1, 7);
    let f = paper::check(f, edition <= 1, 7);
    slots::check_order(f, slots, starts, ends, 9)
}
