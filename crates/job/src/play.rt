// Playing a job: sets, minutes and totals from the owners, the draws, and the listing of what comes out.
ghost use Rattle.std.specs.Prelude.{◌≡◌, ℕ, ◌≤◌, ◌<◌, ◌^◌, pos, length, get_or, replicate};
ghost use Rattle.std.specs.Int.Signed.{mag};
ghost use Rattle.owners.specs.Derived.{plan, derived};
ghost use Rattle.owners.specs.Entries.{from_slots};
ghost use Rattle.rota.specs.Entries.{played};
ghost use Rattle.records.specs.Puts.{Wrote};
ghost use Rattle.job.specs.Listing.{listed, listing_of, listing_most};
ghost use Rattle.job.specs.Stages.{draws_of, play_of};
ghost use Rattle.job.specs.Inside.{ReadOk, StartedAs, PlayedAs, ready_by};

use crate::columns::column16;
use crate::listing::put_listing;
use crate::run::placeless;
use crate::{Played, Prepared, Started};
use paper::Refusal;

// Sets, minutes and totals from the owners. Refusal 12.
pub(crate) fn start_rota(
    people: usize,
    slots: usize,
    starts: &[u32],
    ends: &[u32],
    avail: &[u64],
    owners: &[u8],
) -> Result<Started, Refusal>
    ensures { StartedAs (from_slots (plan people slots starts.now ends.now) avail.now
        owners.now (derived (replicate 512 0) (replicate 32 0) (replicate 2 0))) result }
{
    let mut sets = [0u64; 512];
    let mut minutes = [0u64; 32];
    let mut totals = [0u64; 2];
    let number = owners::from_slots(
        people,
        slots,
        starts,
        ends,
        avail,
        owners,
        &mut sets,
        &mut minutes,
        &mut totals,
    );
    if number != 0 {
        return Err(placeless(number));
    }
    Ok(Started {
        sets,
        minutes,
        totals,
    })
}

// The draws.
fn play_draws(
    people: usize,
    slots: usize,
    units: usize,
    count: usize,
    starts: &[u32],
    ends: &[u32],
    avail: &[u64],
    begins: &[u16],
    frozen: &[u64],
    draws: &[u16],
    firsts: &[u16],
    seconds: &[u16],
    owners: [u8; 1024],
    sets: [u64; 512],
    minutes: [u64; 32],
    totals: [u64; 2],
) -> Result<Played, Refusal>
    ensures { PlayedAs (played (plan people slots starts.now ends.now) avail.now units
        begins.now frozen.now count draws.now firsts.now seconds.now owners
        (derived sets minutes totals) (replicate 1024 0)) result }
{
    let mut o = owners;
    let mut s = sets;
    let mut m = minutes;
    let mut t = totals;
    let mut answers = [0u8; 1024];
    let refusal = rota::play::play(
        people,
        slots,
        units,
        count,
        starts,
        ends,
        avail,
        begins,
        frozen,
        draws,
        firsts,
        seconds,
        &mut o,
        &mut s,
        &mut m,
        &mut t,
        &mut answers,
    );
    if refusal.number != 0 {
        return Err(refusal);
    }
    Ok(Played {
        owners: o,
        minutes: m,
        totals: t,
        answers,
    })
}

// The draws of a file, played on what was prepared from it.
pub(crate) fn play(
    file: &[u8],
    counts: [usize; 8],
    blocks: [usize; 8],
    p: Prepared,
) -> Result<Played, Refusal>
    requires read_ok { ReadOk file.now counts blocks }
    requires begins_len { (length p.begins ≡ 1024) × (length p.frozen ≡ 16) }
    ensures { PlayedAs (play_of (ready_by p) (draws_of file.now) p.owners (derived p.sets p.minutes p.totals)) result }
{
    let at = blocks[6];
    let n = counts[6];
    let draws = column16(file, at + 4, 10, n);
    let firsts = column16(file, at + 6, 10, n);
    let seconds = column16(file, at + 8, 10, n);
    let starts = p.starts;
    let ends = p.ends;
    let avail = p.avail;
    let begins = p.begins;
    let frozen = p.frozen;
    let owners = p.owners;
    let sets = p.sets;
    let minutes = p.minutes;
    let totals = p.totals;
    play_draws(
        p.people, p.slots, p.units, n, &starts, &ends, &avail, &begins, &frozen, &draws, &firsts,
        &seconds, owners, sets, minutes, totals,
    )
}

// The listing of what was prepared and played, from the front of out; its length. U is the stored total.
pub(crate) fn list(out: &mut [u8], draws: usize, p: Prepared, y: Played) -> usize
    requires slots_bound { (p.slots ≤ 1024) × (p.people ≤ 32) × (draws ≤ 1024) × (listing_most ≤ length out.old) }
    requires starts_len { (length p.starts ≡ 1024) × (length p.ends ≡ 1024) × (length p.targets ≡ 32) }
    requires owners_len { (length y.owners ≡ 1024) × (length y.minutes ≡ 32) × (length y.totals ≡ 2) × (length y.answers ≡
        1024) }
    requires by_index { (k : ℕ) → k < p.people → mag (get_or p.targets k (pos 0)) < 2 ^ 63 }
    ensures { Wrote (listing_of (listed p.slots p.starts p.ends y.owners p.people y.minutes p.targets
        draws
        y.answers (get_or y.totals 0 0))) 0 out.old result out.new }
{
    let starts = p.starts;
    let ends = p.ends;
    let targets = p.targets;
    let owners = y.owners;
    let minutes = y.minutes;
    let totals = y.totals;
    let answers = y.answers;
    put_listing(
        out, p.slots, &starts, &ends, &owners, p.people, &minutes, &targets, draws, &answers,
        totals[0],
    )
}
