// The people's standings before the passes: figures, raw share, target 0, nobody pinned.
ghost use Rattle.std.specs.Prelude.{◌≡◌, ◌-◌, ◌<◌, true, cond, ◌++◌, replicate, ◌==◌};
ghost use Rattle.slots.specs.Lent.{slots_ok, demand_of};
ghost use Rattle.targets.specs.Figures.{standing_of, pad, minutes_if_available, available_minutes};
ghost use Rattle.targets.specs.Outcome.{given, standings_in};
ghost use Rattle.targets.specs.Inside.{Sound, RowSound};

use crate::{Person, Standing};
use slots::minutes_at;
use slotset::row;

// The minutes of slot k, if the person is available for it.
fn minutes_if_available(
    people: usize,
    slots: usize,
    starts: &[u32],
    ends: &[u32],
    avail: &[u64],
    person: usize,
    k: usize,
) -> u32
    requires { RowSound people person slots avail.now × (k < slots) }
    ensures { result ≡ minutes_if_available starts.now ends.now avail.now person k }
{
    match row::contains(people, slots, avail, person, k) {
        Ok(true) => minutes_at(starts, ends, k),
        Ok(false) => 0,
        Err(_) => 0,
    }
}

// The lengths of the slots that a person is available for, added up.
fn available_minutes(
    people: usize,
    slots: usize,
    starts: &[u32],
    ends: &[u32],
    avail: &[u64],
    person: usize,
) -> u32
    requires { RowSound people person slots avail.now × (slots_ok slots starts.now ends.now ≡ true) }
    ensures { result ≡ available_minutes slots starts.now ends.now avail.now person }
{
    let mut total: u32 = 0;
    for k in 0..slots {
        total += minutes_if_available(people, slots, starts, ends, avail, person, k);
    }
    total
}

// What a person's raw share is taken of: demand (fairness 1), or their available minutes (fairness 0).
fn base_of(
    people: usize,
    slots: usize,
    fairness: u8,
    starts: &[u32],
    ends: &[u32],
    avail: &[u64],
    demand: u32,
    person: usize,
) -> u32
    requires { RowSound people person slots avail.now × (slots_ok slots starts.now ends.now ≡ true) }
    ensures { result ≡ cond (fairness == 1) demand
        (available_minutes slots starts.now ends.now avail.now person) }
{
    if fairness == 1 {
        return demand;
    }
    available_minutes(people, slots, starts, ends, avail, person)
}

// A person's standing before the passes.
fn standing_of(person: Person, base: u32) -> Standing
    ensures { result ≡ standing_of person base }
{
    Standing {
        person,
        raw: person.capacity * (base as f64),
        target: 0,
        pinned: false,
    }
}

// The people's standings, and after them standings that take no part. They are the same in each edition.
pub(crate) fn standings_of(
    people: usize,
    slots: usize,
    fairness: u8,
    starts: &[u32],
    ends: &[u32],
    avail: &[u64],
    capacities: &[f64],
    priors: &[u32],
    demand: u32,
) -> [Standing; 32]
    requires { Sound (given people slots starts.now ends.now avail.now capacities.now priors.now fairness 0)
        × (demand ≡ demand_of slots starts.now ends.now) }
    ensures { result ≡ standings_in (given people slots starts.now ends.now avail.now
        capacities.now priors.now fairness 0)
        ++ replicate (32 - people) pad }
{
    let none = Standing {
        person: Person {
            capacity: 0.0,
            prior: 0,
        },
        raw: 0.0,
        target: 0,
        pinned: true,
    };
    let mut out = [none; 32];
    for i in 0..people {
        let p = Person {
            capacity: capacities[i],
            prior: priors[i],
        };
        let base = base_of(people, slots, fairness, starts, ends, avail, demand, i);
        out[i] = standing_of(p, base);
    }
    out
}
