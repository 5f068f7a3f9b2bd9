// A single slot given to an owner, and the stretches that moves hand over.
ghost use Rattle.std.specs.Prelude.{◌≡◌, true, []};
ghost use Rattle.paper.specs.Rows.{refusal_of};
ghost use Rattle.owners.specs.Derived.{plan, derived, known_by};
ghost use Rattle.owners.specs.Inside.{PlanSound, InStep, OneOwner, HandedOver};
ghost use Rattle.owners.specs.Entries.{Ended};
ghost use Rattle.rota.specs.Entries.{assign_row, assigned};

use paper::Refusal;

// Slots a up to e, all of one owner, go to another: on a rota in step, which stays in step.
pub(crate) fn hand_over(
    people: usize,
    slots: usize,
    starts: &[u32],
    ends: &[u32],
    owners: &mut [u8],
    sets: &mut [u64],
    minutes: &mut [u64],
    totals: &mut [u64],
    a: usize,
    e: usize,
    to: u8,
)
    requires plan_sound { PlanSound (plan people slots starts.now ends.now) }
    requires in_step { InStep (plan people slots starts.now ends.now) owners.old (derived sets.old minutes.old totals.old) }
    requires one_owner { OneOwner owners.old slots a e }
    requires to_value { known_by people to ≡ true }
    ensures { HandedOver (plan people slots starts.now ends.now) owners.old (derived sets.old minutes.old totals.old) a e to owners.new (derived sets.new minutes.new totals.new) }
{
    owners::hand_over(
        people, slots, starts, ends, owners, sets, minutes, totals, a, e, to,
    );
}

// What stands against a single assign: 1, 2, 9, 10, 11 or 12.
fn assign_refusal(
    people: usize,
    slots: usize,
    starts: &[u32],
    ends: &[u32],
    avail: &[u64],
    owners: &[u8],
    sets: &[u64],
    minutes: &[u64],
    totals: &[u64],
    slot: usize,
    owner: u8,
) -> Refusal
    ensures { result ≡ refusal_of (assign_row (plan people slots starts.now ends.now) avail.now
        owners.now (derived sets.now minutes.now totals.now) slot owner) }
{
    let f = owners::recount_slots(
        people, slots, starts, ends, avail, owners, sets, minutes, totals,
    );
    let f = paper::check(f, slot < slots, 11);
    let f = paper::check(f, owners::known_by(people, owner), 11);
    paper::check(f, owners::available_for(avail, owner, slot), 12)
}

// Gives a slot to an owner, 255 to clear it. Refusals 1, 2, 9, 10 with part and place, 11, 12. It asks nothing of units or frozen flags.
pub fn assign(
    people: usize,
    slots: usize,
    starts: &[u32],
    ends: &[u32],
    avail: &[u64],
    owners: &mut [u8],
    sets: &mut [u64],
    minutes: &mut [u64],
    totals: &mut [u64],
    slot: usize,
    owner: u8,
) -> Refusal
    ensures { Ended (assigned (plan people slots starts.now ends.now) avail.now owners.old (derived sets.old minutes.old totals.old) slot owner) result owners.new
        (derived sets.new
        minutes.new totals.new) [] }
{
    let refusal = assign_refusal(
        people, slots, starts, ends, avail, owners, sets, minutes, totals, slot, owner,
    );
    if refusal.number == 0 {
        hand_over(
            people,
            slots,
            starts,
            ends,
            owners,
            sets,
            minutes,
            totals,
            slot,
            slot + 1,
            owner,
        );
        return refusal;
    }
    refusal
}
