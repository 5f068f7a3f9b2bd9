// What a replay shows: the text of a block, and the line that ends it. Each is written from the front of a lent buffer.
ghost use Rattle.std.specs.Prelude.{◌≡◌, ℕ, ◌≤◌, ◌<◌, ◌^◌, pos, length, get_or};
ghost use Rattle.std.specs.Int.Signed.{mag};
ghost use Rattle.paper.specs.Rows.{refusal_of};
ghost use Rattle.records.specs.Puts.{Wrote};
ghost use Rattle.job.specs.Listing.{refusal_line};
ghost use Rattle.job.specs.Outcome.{Ends};
ghost use Rattle.job.specs.Shown.{block_text, block_row, block_result, differ_line, last_line, last_result};

use crate::Ending;
use crate::listing::{
    digit_count, put_byte, put_head, put_number_then, put_people, put_refusal, put_slots,
    refusal_size,
};
use crate::run::LISTING_MOST;
use paper::Refusal;

// What stands against a block's text: 1, then 2.
pub fn block_refusal(
    people: usize,
    slots: usize,
    starts: &[u32],
    ends: &[u32],
    owners: &[u8],
    minutes: &[u64],
    targets: &[i64],
    room: usize,
) -> Refusal
    ensures { result ≡ refusal_of (block_row people slots starts.now ends.now owners.now
        minutes.now targets.now room) }
{
    let f = paper::check_people(paper::accepted(), people);
    let f = paper::check_slots(f, slots);
    let f = paper::check(f, slots <= starts.len(), 2);
    let f = paper::check(f, slots <= ends.len(), 2);
    let f = paper::check(f, slots <= owners.len(), 2);
    let f = paper::check(f, people <= minutes.len(), 2);
    let f = paper::check(f, people <= targets.len(), 2);
    paper::check(f, LISTING_MOST <= room, 2)
}

// The line of the block, the lines of the slots and of the people.
fn put_block_lines(
    block: usize,
    people: usize,
    slots: usize,
    starts: &[u32],
    ends: &[u32],
    owners: &[u8],
    minutes: &[u64],
    targets: &[i64],
    out: &mut [u8],
) -> usize
    requires slots_in_bounds { (slots ≤ length starts.now) × (slots ≤ length ends.now) × (slots ≤ length owners.now) }
    requires people_in_bounds { (people ≤ length minutes.now) × (people ≤ length targets.now) }
    requires targets_in_bounds { length (block_text block people slots starts.now ends.now owners.now minutes.now targets.now) ≤ length out.old }
    ensures { Wrote (block_text block people slots starts.now ends.now owners.now
        minutes.now targets.now) 0 out.old result out.new }
{
    let first = put_head(out, 0, b'B', block as u64, b'\n');
    let second = put_slots(out, first, slots, starts, ends, owners);
    put_people(out, second, people, minutes, targets)
}

// Reads each target. What a number of 64 bits can be is known of it once it was read; its line then fits.
fn see_targets(people: usize, targets: &[i64])
    requires { people ≤ length targets.now }
    ensures { (p : ℕ) → p < people → mag (get_or targets.now p (pos 0)) < 2 ^ 63 }
{
    for p in 0..people {
        let _target = targets[p];
    }
}

// The text of a block from the front of out, and its length. Refusals 1, 2.
pub fn put_block(
    block: usize,
    people: usize,
    slots: usize,
    starts: &[u32],
    ends: &[u32],
    owners: &[u8],
    minutes: &[u64],
    targets: &[i64],
    out: &mut [u8],
) -> Result<usize, Refusal>
    ensures { Ends (block_result block people slots starts.now ends.now owners.now
        minutes.now targets.now out.old) result out.new }
{
    let f = block_refusal(
        people,
        slots,
        starts,
        ends,
        owners,
        minutes,
        targets,
        out.len(),
    );
    if f.number != 0 {
        return Err(f);
    }
    see_targets(people, targets);
    Ok(put_block_lines(
        block, people, slots, starts, ends, owners, minutes, targets, out,
    ))
}

// The line of a difference: its block and its place there.
fn put_difference(block: usize, place: usize, out: &mut [u8]) -> usize
    requires { length (differ_line block place) ≤ length out.old }
    ensures { Wrote (differ_line block place) 0 out.old result out.new }
{
    let next = put_head(out, 0, b'X', block as u64, b' ');
    put_number_then(out, next, place as u64, b'\n')
}

// How many bytes the line of a refusal has.
fn refused_size(f: Refusal) -> usize
    ensures { result ≡ length (refusal_line f) }
{
    refusal_size(f.number, f.part, f.place as u64, f.second as u64)
}

// The line of a refusal.
fn put_refused(f: Refusal, out: &mut [u8]) -> usize
    requires { length (refusal_line f) ≤ length out.old }
    ensures { Wrote (refusal_line f) 0 out.old result out.new }
{
    put_refusal(out, f.number, f.part, f.place as u64, f.second as u64)
}

// How many bytes the last line has.
fn last_size(end: Ending) -> usize
    ensures { result ≡ length (last_line end) }
{
    match end {
        Ending::Agrees => 2,
        Ending::Differs { block, place } => digit_count(block as u64)
            + digit_count(place as u64)
            + 4,
        Ending::Refused(f) => refused_size(f),
    }
}

// The last line, from the front of out, which has room for it.
fn put_last(end: Ending, out: &mut [u8]) -> usize
    requires { length (last_line end) ≤ length out.old }
    ensures { Wrote (last_line end) 0 out.old result out.new }
{
    match end {
        Ending::Agrees => {
            let next = put_byte(out, 0, b'E');
            put_byte(out, next, b'\n')
        }
        Ending::Differs { block, place } => put_difference(block, place, out),
        Ending::Refused(f) => put_refused(f, out),
    }
}

// The last line at the front of line, and its length. Refusal 2: line is shorter than that.
pub fn last_line(end: Ending, line: &mut [u8]) -> Result<usize, Refusal>
    ensures { Ends (last_result end line.old) result line.new }
{
    let size = last_size(end);
    let short = paper::check(paper::accepted(), size <= line.len(), 2);
    if short.number != 0 {
        return Err(short);
    }
    Ok(put_last(end, line))
}
