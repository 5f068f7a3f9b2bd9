// A recording: where its job ends, its job prepared into lent columns, and its blocks.
ghost use Rattle.std.specs.Prelude.{◌≡◌};
ghost use Rattle.owners.specs.Derived.{derived};
ghost use Rattle.job.specs.Stages.{ready};
ghost use Rattle.job.specs.Begun.{lent, beginning};
ghost use Rattle.replay.specs.Reading.{job_end};
ghost use Rattle.boltraven_c.specs.Replay.{BeginEnds, BlockEnds};

use crate::NOTHING;
use crate::answers::refusal_number;
use replay::BlockRead;

// How many of the bytes are the job's.
#[unsafe(no_mangle)]
pub extern "C" fn boltraven_job_end(bytes: &[u8]) -> u64
    ensures { result ≡ job_end bytes.now }
{
    replay::job_end(bytes) as u64
}

// The job prepared into lent columns, with its counts of people, slots and units: 0, or the refusal.
#[unsafe(no_mangle)]
pub extern "C" fn boltraven_begin_recording(
    bytes: &[u8],
    starts: &mut [u32],
    ends: &mut [u32],
    avail: &mut [u64],
    unit_starts: &mut [u16],
    frozen: &mut [u64],
    targets: &mut [i64],
    owners: &mut [u8],
    sets: &mut [u64],
    minutes: &mut [u64],
    totals: &mut [u64],
    people: &mut u64,
    slots: &mut u64,
    units: &mut u64,
) -> u64
    ensures { BeginEnds (beginning bytes.now (lent (ready people.old slots.old starts.old
        ends.old avail.old units.old unit_starts.old frozen.old
        targets.old) owners.old (derived sets.old minutes.old totals.old))) result
        (lent (ready people.new slots.new starts.new ends.new avail.new
        units.new unit_starts.new frozen.new targets.new) owners.new
        (derived sets.new minutes.new totals.new)) }
{
    let refusal = job::begin_recording(
        bytes,
        starts,
        ends,
        avail,
        unit_starts,
        frozen,
        targets,
        owners,
        sets,
        minutes,
        totals,
        people,
        slots,
        units,
    );
    refusal_number(refusal)
}

// The block at the front of the bytes, into four columns: 0, with how many draws it has and where the next begins; 65,536, the end; else
// the number of the refusal.
#[unsafe(no_mangle)]
pub extern "C" fn boltraven_read_block(
    bytes: &[u8],
    blocks: usize,
    draws: &mut [u16],
    firsts: &mut [u16],
    seconds: &mut [u16],
    recorded: &mut [u16],
    count: &mut u64,
    next: &mut u64,
) -> u64
    ensures { BlockEnds bytes.now blocks draws.old firsts.old seconds.old
        recorded.old count.old next.old result draws.new firsts.new seconds.new
        recorded.new count.new next.new }
{
    match replay::read_block(bytes, blocks, draws, firsts, seconds, recorded) {
        Ok(
            BlockRead::Block {
                draws: n,
                next: end,
            },
        ) => {
            *count = n as u64;
            *next = end as u64;
            0
        }
        Ok(BlockRead::End) => NOTHING,
        Err(n) => n as u64,
    }
}
