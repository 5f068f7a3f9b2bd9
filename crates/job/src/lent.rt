// The job of a recording, prepared into lent columns.
ghost use Rattle.std.specs.Prelude.{◌≡◌, true, ◌≤◌, length};
ghost use Rattle.owners.specs.Derived.{derived};
ghost use Rattle.job.specs.Stages.{ready};
ghost use Rattle.job.specs.Begun.{ready_from, derived_from, ready_room, rota_room, laid, ready_laid, derived_laid};
ghost use Rattle.job.specs.Begun.{lent, beginning, Begins};

use crate::Begun;
use crate::recorded::begin;
use paper::Refusal;

// The words of a set for each of as many people as there may be.
const WORDS_MOST: usize = 512;

// A column from the front of a lent one.
#[tactic(auto, unfolding(crate::specs::Begun::laid))]
fn lay<T: Copy>(from: &[T], to: &mut [T])
    requires { length from.now ≤ length to.old }
    ensures { to.new ≡ laid from.now to.old }
{
    to[..from.len()].copy_from_slice(from);
}

// Whether the columns that a play goes by have room.
fn ready_room(
    starts: &[u32],
    ends: &[u32],
    avail: &[u64],
    begins: &[u16],
    frozen: &[u64],
    targets: &[i64],
) -> bool
    ensures { result ≡ ready_room (ready 0 0 starts.now ends.now avail.now 0 begins.now
        frozen.now targets.now) }
{
    let last = paper::both(
        paper::SET_WORDS <= frozen.len(),
        paper::PEOPLE_MOST <= targets.len(),
    );
    let more = paper::both(paper::SLOTS_MOST <= begins.len(), last);
    let words = paper::both(WORDS_MOST <= avail.len(), more);
    let rest = paper::both(paper::SLOTS_MOST <= ends.len(), words);
    paper::both(paper::SLOTS_MOST <= starts.len(), rest)
}

// Whether the columns of a rota have room.
fn rota_room(owners: &[u8], sets: &[u64], minutes: &[u64], totals: &[u64]) -> bool
    ensures { result ≡ rota_room owners.now (derived sets.now minutes.now totals.now) }
{
    let last = paper::both(paper::PEOPLE_MOST <= minutes.len(), 2 <= totals.len());
    let rest = paper::both(WORDS_MOST <= sets.len(), last);
    paper::both(paper::SLOTS_MOST <= owners.len(), rest)
}

// What a play goes by.
fn lay_ready(
    b: &Begun,
    starts: &mut [u32],
    ends: &mut [u32],
    avail: &mut [u64],
    begins: &mut [u16],
    frozen: &mut [u64],
    targets: &mut [i64],
    people: &mut u64,
    slots: &mut u64,
    units: &mut u64,
)
    requires { ready_room (ready 0 0 starts.old ends.old avail.old 0 begins.old frozen.old targets.old) ≡ true }
    ensures { ready people.new slots.new starts.new ends.new avail.new
        units.new begins.new frozen.new targets.new ≡ ready_laid (ready_from b.now)
        (ready people.old slots.old starts.old ends.old avail.old
        units.old begins.old frozen.old targets.old) }
{
    lay(&b.starts, starts);
    lay(&b.ends, ends);
    lay(&b.avail, avail);
    lay(&b.begins, begins);
    lay(&b.frozen, frozen);
    lay(&b.targets, targets);
    *people = b.people as u64;
    *slots = b.slots as u64;
    *units = b.units as u64;
}

// The rota before the first block.
fn lay_rota(b: &Begun, owners: &mut [u8], sets: &mut [u64], minutes: &mut [u64], totals: &mut [u64])
    requires { rota_room owners.old (derived sets.old minutes.old totals.old) ≡ true }
    ensures owners_after { owners.new ≡ laid b.now.owners owners.old }
    ensures totals_after { derived sets.new minutes.new totals.new ≡ derived_laid (derived_from b.now)
        (derived sets.old minutes.old totals.old) }
{
    lay(&b.owners, owners);
    lay(&b.sets, sets);
    lay(&b.minutes, minutes);
    lay(&b.totals, totals);
}

// The job of a recording into lent columns, each from its front, and its three counts. Refusals as `begin`, 2 where a column is shorter
// than the limits ask; then nothing that is lent changes.
pub fn begin_recording(
    file: &[u8],
    starts: &mut [u32],
    ends: &mut [u32],
    avail: &mut [u64],
    begins: &mut [u16],
    frozen: &mut [u64],
    targets: &mut [i64],
    owners: &mut [u8],
    sets: &mut [u64],
    minutes: &mut [u64],
    totals: &mut [u64],
    people: &mut u64,
    slots: &mut u64,
    units: &mut u64,
) -> Refusal
    ensures { Begins (beginning file.now (lent (ready people.old slots.old starts.old
        ends.old avail.old units.old begins.old frozen.old targets.old)
        owners.old (derived sets.old minutes.old totals.old))) result
        (lent (ready people.new slots.new starts.new ends.new avail.new
        units.new begins.new frozen.new targets.new) owners.new
        (derived sets.new minutes.new totals.new)) }
{
    let board = ready_room(starts, ends, avail, begins, frozen, targets);
    let rota = rota_room(owners, sets, minutes, totals);
    let b = begin(file, paper::both(board, rota));
    let refusal = b.refusal;
    if refusal.number == 0 {
        lay_ready(
            &b, starts, ends, avail, begins, frozen, targets, people, slots, units,
        );
        lay_rota(&b, owners, sets, minutes, totals);
        return refusal;
    }
    refusal
}
