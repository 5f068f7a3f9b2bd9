// The passes: what they leave of the people's standings.
ghost use Rattle.std.specs.Prelude.{◌≡◌, ◌+◌, ◌≤◌, false, map};
ghost use Rattle.targets.specs.Passes.{unrounded, outside, below_zero, settle, with_share, share_sum, with_prior, notional};
ghost use Rattle.targets.specs.Passes.{some, passed, pass, passes, again};
ghost use Rattle.targets.specs.Inside.{passed_of, left_of};

use crate::{Standing, rounding};

// The standings after a pass: another is due over them, or they are what the passes leave.
#[derive(Clone, Copy)]
enum Round {
    Again([Standing; 32]),
    Done([Standing; 32]),
}

// N * (raw / sum) - prior.
fn unrounded_of(l: Standing, n: f64, sum: f64) -> f64
    ensures { result ≡ unrounded n sum l }
{
    n * (l.raw / sum) - (l.person.prior as f64)
}

// The sum with the raw share of a person who is not pinned.
fn with_share(sum: f64, l: Standing) -> f64
    ensures { result ≡ with_share sum l }
{
    if l.pinned {
        return sum;
    }
    sum + l.raw
}

// The raw shares of the unpinned, added in order.
fn share_sum(standings: [Standing; 32]) -> f64
    ensures { result ≡ share_sum standings }
{
    standings.iter().fold(0.0, |sum, l| with_share(sum, *l))
}

// N with the prior minutes of a person who is not pinned.
fn with_prior(n: u64, l: Standing) -> u64
    requires { n ≤ 4294967296000 }
    ensures { (result ≡ with_prior n l) × (result ≤ n + 4294967295) }
{
    if l.pinned {
        return n;
    }
    n + (l.person.prior as u64)
}

// N: demand plus the priors of the unpinned.
fn notional_of(demand: u32, standings: [Standing; 32]) -> u64
    ensures { (result ≡ notional demand standings) × (result ≤ 141733920735) }
{
    let mut n = demand as u64;
    for l in standings {
        n = with_prior(n, l);
    }
    n
}

// Whether an unpinned person's unrounded target breaks the guard of refusal 8.
fn is_outside(l: Standing, n: f64, sum: f64) -> bool
    ensures { result ≡ outside n sum l }
{
    !l.pinned && !rounding::is_within(unrounded_of(l, n, sum))
}

fn some_outside(standings: [Standing; 32], n: f64, sum: f64) -> bool
    ensures { result ≡ some (outside n sum) standings }
{
    standings.iter().any(|l| is_outside(*l, n, sum))
}

// Whether an unpinned person's unrounded target is below 0.
fn is_below_zero(l: Standing, n: f64, sum: f64) -> bool
    ensures { result ≡ below_zero n sum l }
{
    !l.pinned && unrounded_of(l, n, sum) < 0.0
}

fn some_below_zero(standings: [Standing; 32], n: f64, sum: f64) -> bool
    ensures { result ≡ some (below_zero n sum) standings }
{
    standings.iter().any(|l| is_below_zero(*l, n, sum))
}

// One person after a pass: pinned at 0 where the unrounded target is below 0, else rounded.
fn settled_standing(l: Standing, n: f64, sum: f64) -> Standing
    requires { outside n sum l ≡ false }
    ensures { result ≡ settle n sum l }
{
    if l.pinned {
        return l;
    }
    let x = unrounded_of(l, n, sum);
    if x < 0.0 {
        return Standing {
            target: 0,
            pinned: true,
            ..l
        };
    }
    let target = rounding::nearest(x);
    Standing { target, ..l }
}

fn settled_standings(standings: [Standing; 32], n: f64, sum: f64) -> [Standing; 32]
    requires { some (outside n sum) standings ≡ false }
    ensures { result ≡ map (settle n sum) standings }
{
    let mut out = standings;
    for (i, l) in standings.iter().enumerate() {
        out[i] = settled_standing(*l, n, sum);
    }
    out
}

// A pass with this N and this sum, or nothing where refusal 8 is given.
fn passed_over(standings: [Standing; 32], n: f64, sum: f64) -> Option<Round>
    ensures { passed_of result ≡ passed n sum standings }
{
    if sum > 0.0 {
        if some_outside(standings, n, sum) {
            return None;
        }
        let out = settled_standings(standings, n, sum);
        if some_below_zero(standings, n, sum) {
            return Some(Round::Again(out));
        }
        return Some(Round::Done(out));
    }
    Some(Round::Done(standings))
}

// A pass over these standings.
fn pass_of(standings: [Standing; 32], demand: u32) -> Option<Round>
    ensures { passed_of result ≡ pass demand (again standings) }
{
    let n = std::num::nearest_u64_to_f64(notional_of(demand, standings));
    let sum = share_sum(standings);
    passed_over(standings, n, sum)
}

// What the passes leave: at most people + 1 of them. Nothing where one is refused.
pub(crate) fn passes_of(
    people: usize,
    standings: [Standing; 32],
    demand: u32,
) -> Option<[Standing; 32]>
    requires { people ≤ 32 }
    ensures { result ≡ left_of (passes (people + 1) demand (again standings)) }
{
    let mut left = standings;
    for _k in 0..=people {
        match pass_of(left, demand)? {
            Round::Again(after) => left = after,
            Round::Done(after) => return Some(after),
        }
    }
    Some(left)
}
