// The entry: what stands against a way back, and the way.
ghost use Rattle.std.specs.Prelude.{◌≡◌};
ghost use Rattle.paper.specs.Rows.{refusal_of};
ghost use Rattle.owners.specs.Derived.{plan, derived};
ghost use Rattle.wayback.specs.Answers.{way_room_ok, remembered_row, way_row, way_back_of, Ended};

use crate::Way;
use crate::search::first_in_way;
use crate::writing::write_draws;
use paper::Refusal;

// Rule 2 of units, flags, remembered owners and columns.
#[tactic(auto, unfolding(crate::specs::Answers::way_room_ok, rota::specs::Entries::columns_enough))]
fn room_ok(
    slots: usize,
    units: usize,
    begins: &[u16],
    frozen: &[u64],
    remembered: &[u8],
    draws: &[u16],
    firsts: &[u16],
    seconds: &[u16],
) -> bool
    ensures { result ≡ way_room_ok slots units begins.now frozen.now remembered.now draws.now firsts.now seconds.now }
{
    units <= begins.len()
        && paper::SET_WORDS <= frozen.len()
        && slots <= remembered.len()
        && slots <= draws.len()
        && slots <= firsts.len()
        && slots <= seconds.len()
}

// A refusal with its number, part and place.
fn refusal_in(number: u8, part: u8, place: usize) -> Refusal
    ensures { result ≡ record { number = number; part = part; place = place; second = 0 } }
{
    Refusal {
        number,
        part,
        place,
        second: 0,
    }
}

// What stands against the remembered owners: a unit with two 10, an unknown one 11, one who is not available 12.
fn remembered_refusal(
    people: usize,
    slots: usize,
    units: usize,
    starts: &[u32],
    ends: &[u32],
    avail: &[u64],
    begins: &[u16],
    remembered: &[u8],
) -> Refusal
    ensures { result ≡ refusal_of (remembered_row (plan people slots starts.now ends.now) avail.now
        units begins.now remembered.now) }
{
    let uneven = owners::first_uneven(slots, units, begins, remembered);
    if uneven < units {
        return refusal_in(10, 3, uneven);
    }
    if owners::first_unknown(people, slots, remembered) < slots {
        return refusal_in(11, 0, 0);
    }
    if owners::first_unavailable(slots, avail, remembered) < slots {
        return refusal_in(12, 0, 0);
    }
    paper::accepted()
}

// What stands against a way back: 1, 2, 9 or 10 of the rota, then 10, 11 or 12 of the remembered owners.
fn way_refusal(
    people: usize,
    slots: usize,
    units: usize,
    starts: &[u32],
    ends: &[u32],
    avail: &[u64],
    begins: &[u16],
    frozen: &[u64],
    remembered: &[u8],
    owners: &[u8],
    sets: &[u64],
    minutes: &[u64],
    totals: &[u64],
    draws: &[u16],
    firsts: &[u16],
    seconds: &[u16],
) -> Refusal
    ensures { result ≡ refusal_of (way_row (plan people slots starts.now ends.now) avail.now
        units begins.now frozen.now remembered.now owners.now (derived sets.now minutes.now totals.now) draws.now firsts.now seconds.now) }
{
    let f = owners::recounted(
        true,
        room_ok(
            slots, units, begins, frozen, remembered, draws, firsts, seconds,
        ),
        people,
        slots,
        units,
        starts,
        ends,
        avail,
        begins,
        owners,
        sets,
        minutes,
        totals,
    );
    if f.number == 0 {
        return remembered_refusal(
            people, slots, units, starts, ends, avail, begins, remembered,
        );
    }
    f
}

// The draws that bring remembered owners back, one for each unit whose owner differs and no other, written into three columns with room for a
// draw a slot; or the first unit that no reassign gives back. Refusals 1, 2, 9, 10, 11, 12.
pub fn way_back(
    people: usize,
    slots: usize,
    units: usize,
    starts: &[u32],
    ends: &[u32],
    avail: &[u64],
    begins: &[u16],
    frozen: &[u64],
    remembered: &[u8],
    owners: &[u8],
    sets: &[u64],
    minutes: &[u64],
    totals: &[u64],
    draws: &mut [u16],
    firsts: &mut [u16],
    seconds: &mut [u16],
) -> Result<Way, Refusal>
    ensures { Ended (way_back_of (plan people slots starts.now ends.now) avail.now units begins.now frozen.now remembered.now owners.now (derived sets.now minutes.now totals.now) draws.old firsts.old seconds.old) result draws.new firsts.new
        seconds.new }
{
    let f = way_refusal(
        people, slots, units, starts, ends, avail, begins, frozen, remembered, owners, sets,
        minutes, totals, draws, firsts, seconds,
    );
    if f.number == 0 {
        let u = first_in_way(slots, units, begins, frozen, remembered, owners);
        if u < units {
            return Ok(Way::NoWay(u));
        }
        let mut fits = [0u32; 1024];
        units::unit_domains(people, slots, units, avail, begins, &mut fits);
        return Ok(Way::Draws(write_draws(
            units, begins, &fits, remembered, owners, draws, firsts, seconds,
        )));
    }
    Err(f)
}
