// The remainder: demand less the targets goes to the largest unpinned target, the last of equals, or to person 0.
ghost use Rattle.std.specs.Prelude.{◌≡◌, ◌+◌, ◌<◌, ◌≤◌, map, pos, ◌+ℤ◌, ◌-ℤ◌};
ghost use Rattle.targets.specs.Remainder.{total_of, better, best, target_of, adjusted};
ghost use Rattle.targets.specs.Inside.{Small};

use crate::{Best, Standing};

// The targets, added up.
pub(crate) fn total_of(standings: [Standing; 32]) -> u64
    requires { Small standings }
    ensures { (result ≡ total_of standings) × (result ≤ 35184372088832) }
{
    let mut sum: u64 = 0;
    for l in standings {
        sum += l.target;
    }
    sum
}

fn better_of(b: Best, l: Standing) -> Best
    requires { (b.next < 32) × (b.at ≤ b.next) }
    ensures { (result ≡ better b l) × (result.next ≡ b.next + 1) × (result.at ≤ b.next) }
{
    let next = b.next + 1;
    if !l.pinned && b.top <= l.target {
        return Best {
            at: b.next,
            top: l.target,
            next,
        };
    }
    Best { next, ..b }
}

// Who takes the remainder.
fn best_of(standings: [Standing; 32]) -> Best
    ensures { (result ≡ best standings) × (result.at < 32) }
{
    let mut b = Best {
        at: 0,
        top: 0,
        next: 0,
    };
    for l in standings {
        b = better_of(b, l);
    }
    b
}

pub(crate) fn signed_of(standings: [Standing; 32]) -> [i64; 32]
    requires { Small standings }
    ensures { result ≡ map target_of standings }
{
    let mut out = [0i64; 32];
    for (i, l) in standings.iter().enumerate() {
        out[i] = l.target as i64;
    }
    out
}

// A target with what demand has over the total. It may be negative.
fn with_rest(target: u64, demand: u32, total: u64) -> i64
    requires { (target ≤ 1099511627776) × (total ≤ 35184372088832) }
    ensures { result ≡ pos target +ℤ (pos demand -ℤ pos total) }
{
    ((target + (demand as u64)) as i64) - (total as i64)
}

// The targets, the remainder handed out.
pub(crate) fn adjusted_of(standings: [Standing; 32], demand: u32) -> [i64; 32]
    requires { Small standings }
    ensures { result ≡ adjusted demand standings }
{
    let mut out = signed_of(standings);
    let total = total_of(standings);
    let at = best_of(standings).at;
    out[at] = with_rest(standings[at].target, demand, total);
    out
}
