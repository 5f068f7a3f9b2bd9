// Fair-share targets. Every step on an f64 is rounded once, in the paper's order.
// Checks, standings, passes, remainder: what the passes leave and what is done with the remainder are apart. Edition 2 of the latter:
// spread, over levels.
#![tactic(auto)]

mod checks;
mod levels;
mod passes;
mod remainder;
mod rounding;
mod spread;
mod standings;

ghost use Rattle.std.specs.Prelude.{◌≡◌, ◌+◌, ◌<◌, ◌≤◌, ◌++◌, length, take, drop};
ghost use Rattle.targets.specs.Passes.{passes, again};
ghost use Rattle.targets.specs.Outcome.{given, Meets};
ghost use Rattle.targets.specs.Inside.{targets_left, Small, PinnedZero};

use slots::demand_of;

// A person's figures.
#[derive(Clone, Copy)]
pub struct Person {
    pub capacity: f64,
    pub prior: u32,
}

// What the passes keep of a person: the figures, the raw share, the target so far, and whether it is pinned at 0.
#[derive(Clone, Copy)]
pub struct Standing {
    pub person: Person,
    pub raw: f64,
    pub target: u64,
    pub pinned: bool,
}

// The largest unpinned target so far: where it stands, what it is, and the place of the standing that comes now.
#[derive(Clone, Copy)]
pub struct Best {
    pub at: usize,
    pub top: u64,
    pub next: usize,
}

// The targets of the standings: what the passes leave, and then the remainder. Nothing where refusal 8 is given.
fn targets_of(
    people: usize,
    edition: u8,
    standings: [Standing; 32],
    demand: u32,
) -> Option<[i64; 32]>
    requires { (0 < people) × (people ≤ 32) × Small standings × PinnedZero standings }
    ensures { result ≡ targets_left edition people demand (passes (people + 1) demand (again standings)) }
{
    let left = passes::passes_of(people, standings, demand)?;
    Some(spread::shared_out(people, edition, left, demand))
}

// The first `people` of the targets go to the front of out, and the rest of out stays.
fn put_targets(people: usize, targets: [i64; 32], out: &mut [i64])
    requires { (people ≤ 32) × (people ≤ length out.old) }
    ensures { out.new ≡ take people targets ++ drop people out.old }
{
    out[..people].copy_from_slice(&targets[..people]);
}

// Each person's target, in out, and 0; or the number of the refusal (1, 2, 6, 7, 8 or 9), with out as it was.
pub fn compute_targets(
    people: usize,
    slots: usize,
    fairness: u8,
    edition: u8,
    starts: &[u32],
    ends: &[u32],
    avail: &[u64],
    capacities: &[f64],
    priors: &[u32],
    out: &mut [i64],
) -> u8
    ensures { Meets (given people slots starts.now ends.now avail.now
        capacities.now priors.now fairness edition)
        out.old result out.new }
{
    let n = checks::checks_refusal(
        people,
        slots,
        fairness,
        edition,
        starts,
        ends,
        avail,
        capacities,
        priors,
        out.len(),
    )
    .number;
    if n != 0 {
        return n;
    }
    let demand = demand_of(slots, starts, ends);
    let standings = standings::standings_of(
        people, slots, fairness, starts, ends, avail, capacities, priors, demand,
    );
    let Some(targets) = targets_of(people, edition, standings, demand) else {
        return 8;
    };
    put_targets(people, targets, out);
    0
}
