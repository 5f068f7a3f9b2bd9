// Edition 2: the remainder is handed out minute by minute. Extra minutes are worked out as missing ones in a mirror.
ghost use Rattle.std.specs.Prelude.{◌≡◌, ◌<◌, ◌≤◌, true, ◌++◌, map, take, drop};
ghost use Rattle.targets.specs.Passes.{some};
ghost use Rattle.targets.specs.Remainder.{target_of};
ghost use Rattle.targets.specs.SecondEdition.{unpinned, unpin, handed_out};
ghost use Rattle.targets.specs.Inside.{Small, PinnedZero, mirrored, taking_first, shared_first};

use crate::{Standing, levels, remainder};

// ---- who takes part

fn some_unpinned(standings: [Standing; 32]) -> bool
    ensures { result ≡ some unpinned standings }
{
    standings.iter().any(|l| !l.pinned)
}

// The people's standings unpinned; those that take no part stay.
fn unpinned_standings(people: usize, standings: [Standing; 32]) -> [Standing; 32]
    requires { people ≤ 32 }
    ensures { result ≡ take people (map unpin standings) ++ drop people standings }
{
    let mut out = standings;
    for i in 0..people {
        let l = standings[i];
        out[i] = Standing { pinned: false, ..l };
    }
    out
}

// The unpinned take part, or everybody if nobody is unpinned.
fn taking_part(people: usize, standings: [Standing; 32]) -> [Standing; 32]
    requires { people ≤ 32 }
    ensures { result ≡ taking_first people standings }
{
    if some_unpinned(standings) {
        return standings;
    }
    unpinned_standings(people, standings)
}

// ---- the mirror

fn mirrored_standing(l: Standing) -> Standing
    requires { l.target ≤ 1099511627776 }
    ensures { result ≡ mirrored l }
{
    let target = 1099511627776 - l.target;
    Standing { target, ..l }
}

fn mirrored_standings(standings: [Standing; 32]) -> [Standing; 32]
    requires { Small standings }
    ensures { result ≡ map mirrored standings }
{
    let mut out = standings;
    for (i, l) in standings.iter().enumerate() {
        out[i] = mirrored_standing(*l);
    }
    out
}

// ---- the remainder

// The standings after as many minutes as are missing, or as are too many.
fn handed_out(standings: [Standing; 32], demand: u32) -> [Standing; 32]
    requires { Small standings × PinnedZero standings × (some unpinned standings ≡ true) }
    ensures { result ≡ handed_out demand standings }
{
    let total = remainder::total_of(standings);
    let wanted = demand as u64;
    if total <= wanted {
        return levels::lifted_by(standings, wanted - total);
    }
    let shown = mirrored_standings(standings);
    let lifted = levels::lifted_by(shown, total - wanted);
    mirrored_standings(lifted)
}

// The targets of edition 2.
fn spread_of(people: usize, standings: [Standing; 32], demand: u32) -> [i64; 32]
    requires { (0 < people) × (people ≤ 32) × Small standings × PinnedZero standings }
    ensures { result ≡ map target_of (handed_out demand (taking_first people standings)) }
{
    let part = taking_part(people, standings);
    let after = handed_out(part, demand);
    remainder::signed_of(after)
}

// The targets, by edition.
pub(crate) fn shared_out(
    people: usize,
    edition: u8,
    standings: [Standing; 32],
    demand: u32,
) -> [i64; 32]
    requires { (0 < people) × (people ≤ 32) × Small standings × PinnedZero standings }
    ensures { result ≡ shared_first edition people demand standings }
{
    if edition == 1 {
        return spread_of(people, standings, demand);
    }
    remainder::adjusted_of(standings, demand)
}
