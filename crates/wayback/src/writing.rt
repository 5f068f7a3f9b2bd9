// The draws of a way back, written into three columns: for each unit whose owner differs draw 0, the unit, and its old owner's place.
ghost use Rattle.std.specs.Prelude.{◌≡◌};
ghost use Rattle.paper.specs.Count.{count};
ghost use Rattle.units.specs.Domains.{in_mask};
ghost use Rattle.wayback.specs.Inside.{WriteRoom, Wrote};

use crate::search::owner_of;

// Whether a person stands in a mask.
fn in_mask(mask: u32, person: usize) -> bool
    ensures { result ≡ in_mask mask person }
{
    person < 32 && (mask >> person) % 2 == 1
}

// The place of a person in a mask: how many stand in it before them.
fn place_in(mask: u32, person: u8) -> u16
    ensures { result ≡ count person (in_mask mask) }
{
    let mut n: u16 = 0;
    for q in 0..person {
        if in_mask(mask, q as usize) {
            n += 1;
        }
    }
    n
}

// Writes a draw for each unit whose owner differs, ascending; how many.
pub(crate) fn write_draws(
    units: usize,
    begins: &[u16],
    fits: &[u32],
    remembered: &[u8],
    owners: &[u8],
    draws: &mut [u16],
    firsts: &mut [u16],
    seconds: &mut [u16],
) -> usize
    requires { WriteRoom units fits.now draws.old firsts.old seconds.old }
    ensures { Wrote begins.now fits.now remembered.now owners.now units result draws.old firsts.old seconds.old draws.new firsts.new seconds.new }
{
    let mut n: usize = 0;
    for u in 0..units {
        let was = owner_of(begins, remembered, u);
        if was != owner_of(begins, owners, u) {
            draws[n] = 0;
            firsts[n] = u as u16;
            seconds[n] = place_in(fits[u], was);
            n += 1;
        }
    }
    n
}
