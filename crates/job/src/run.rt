// A whole job: the file in, the listing out. Its stages are reading (`file`), preparing, playing and listing.
ghost use Rattle.std.specs.Prelude.{◌≡◌};
ghost use Rattle.paper.specs.Rows.{refusal_of};
ghost use Rattle.job.specs.Stages.{job_counts_ok};
ghost use Rattle.owners.specs.Entries.{placeless};
ghost use Rattle.job.specs.Outcome.{Ends, read_row, job_result};

use crate::file::read_file;
use crate::play::{list, play};
use crate::prepare::prepare;
use paper::Refusal;

// The room that a listing is asked for: above all that the widths of its fields allow.
pub const LISTING_MOST: usize = 65536;

// Whether the counts are within the paper's (rule 1).
fn counts_ok(base: usize, people: usize, ranges: usize, draws: usize) -> bool
    ensures { result ≡ job_counts_ok base people ranges draws }
{
    if paper::slot_count_ok(base) {
        if paper::people_ok(people) {
            if ranges <= paper::RANGES_MOST {
                return draws <= paper::DRAWS_MOST;
            }
            return false;
        }
        return false;
    }
    false
}

// 13, then 1, then 2.
pub(crate) fn read_refusal(
    right: bool,
    base: usize,
    people: usize,
    ranges: usize,
    draws: usize,
    room: bool,
) -> Refusal
    ensures { result ≡ refusal_of (read_row right base people ranges draws room) }
{
    let few = counts_ok(base, people, ranges, draws);
    let f = paper::check(paper::accepted(), right, 13);
    let f = paper::check(f, few, 1);
    paper::check(f, room, 2)
}

// A refusal by its number, which names no part.
pub(crate) fn placeless(number: u8) -> Refusal
    ensures { result ≡ placeless number }
{
    Refusal {
        number,
        part: 0,
        place: 0,
        second: 0,
    }
}

// A job: the listing of its file at the front of out and its length, or the refusal with out as it was.
pub fn run_job(file: &[u8], out: &mut [u8]) -> Result<usize, Refusal>
    ensures { Ends (job_result file.now out.old) result out.new }
{
    let w = read_file(file);
    let counts = w.counts;
    let blocks = w.starts;
    let room = LISTING_MOST <= out.len();
    let refusal = read_refusal(w.ok, counts[1], counts[2], counts[3], counts[6], room);
    if refusal.number != 0 {
        return Err(refusal);
    }
    let p = prepare(file, counts, blocks)?;
    let y = play(file, counts, blocks, p)?;
    Ok(list(out, counts[6], p, y))
}
