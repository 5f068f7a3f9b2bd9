// The level that missing minutes reach, and the standings lifted to it: edition 2's minutes, handed out without counting them one by one.
ghost use Rattle.std.specs.Prelude.{◌≡◌, suc, ◌+◌, ◌<◌, ◌≤◌, true};
ghost use Rattle.targets.specs.Passes.{some};
ghost use Rattle.targets.specs.SecondEdition.{unpinned};
ghost use Rattle.targets.specs.Levels.{reached, missing_to, lift_cost, on_level, lifted_standing, left_after, lifted, Lifts};
ghost use Rattle.targets.specs.Inside.{Small, lower, smallest_of};

use crate::Standing;

// The sum with the minutes that lift a person to a level.
fn with_missing(sum: u64, l: Standing, level: u64) -> u64
    requires { (sum ≤ 2251799813685248) × (level ≤ 70368744177664) }
    ensures { (result ≡ sum + missing_to level l) × (result ≤ sum + level) }
{
    if l.pinned {
        return sum;
    }
    sum + level.saturating_sub(l.target)
}

// The minutes that lift everybody.
fn lift_cost(standings: [Standing; 32], level: u64) -> u64
    requires { level ≤ 70368744177664 }
    ensures { result ≡ lift_cost level standings }
{
    let mut sum: u64 = 0;
    for l in standings {
        sum = with_missing(sum, l, level);
    }
    sum
}

fn lower_of(low: u64, l: Standing) -> u64
    ensures { (result ≡ lower low l) × (result ≤ low) }
{
    if l.pinned {
        return low;
    }
    low.min(l.target)
}

// The smallest unpinned target.
fn smallest_of(standings: [Standing; 32]) -> u64
    ensures { (result ≡ smallest_of standings) × (result ≤ 1099511627776) }
{
    let mut low: u64 = 1099511627776;
    for l in standings {
        low = lower_of(low, l);
    }
    low
}

// The highest level that so many minutes reach: looked for by halves, from the smallest target up.
fn level_of(standings: [Standing; 32], minutes: u64) -> u64
    requires { (minutes ≤ 35184372088832) × Small standings × (some unpinned standings ≡ true) }
    ensures { (lift_cost result standings ≤ minutes) × (minutes < lift_cost (suc result) standings) × (result ≤ 36283883716608) }
{
    let mut low = smallest_of(standings);
    let mut high = low + minutes + 1;
    // A while: a search by halves walks no range.
    while low + 1 < high {
        let middle = low + (high - low) / 2;
        if lift_cost(standings, middle) <= minutes {
            low = middle;
        } else {
            high = middle;
        }
    }
    low
}

// Whether a level has reached a person.
fn is_reached(l: Standing, level: u64) -> bool
    ensures { result ≡ reached level l }
{
    !l.pinned && l.target <= level
}

// The level, or one above it while minutes are left over.
fn on_level(level: u64, left: u64) -> u64
    requires { level ≤ 36283883716608 }
    ensures { result ≡ on_level level left }
{
    if left == 0 {
        return level;
    }
    level + 1
}

fn lifted_standing(l: Standing, level: u64, left: u64) -> Standing
    requires { level ≤ 36283883716608 }
    ensures { result ≡ lifted_standing level left l }
{
    if is_reached(l, level) {
        let target = on_level(level, left);
        return Standing { target, ..l };
    }
    l
}

fn left_after(l: Standing, level: u64, left: u64) -> u64
    ensures { result ≡ left_after level left l }
{
    if is_reached(l, level) {
        return left.saturating_sub(1);
    }
    left
}

// Everybody at the level, and those of the minutes that are left over.
fn lifted_standings(standings: [Standing; 32], level: u64, left: u64) -> [Standing; 32]
    requires { level ≤ 36283883716608 }
    ensures { result ≡ lifted level left standings }
{
    let mut out = standings;
    let mut rest = left;
    for (i, l) in standings.iter().enumerate() {
        out[i] = lifted_standing(*l, level, rest);
        rest = left_after(*l, level, rest);
    }
    out
}

// The standings after so many missing minutes.
pub(crate) fn lifted_by(standings: [Standing; 32], minutes: u64) -> [Standing; 32]
    requires { (minutes ≤ 35184372088832) × Small standings × (some unpinned standings ≡ true) }
    ensures { Lifts minutes standings result }
{
    let level = level_of(standings, minutes);
    let left = minutes - lift_cost(standings, level);
    lifted_standings(standings, level, left)
}
