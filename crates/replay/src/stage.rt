// The next block of a recording: read, played and shown, on lent slices.
ghost use Rattle.std.specs.Prelude.{◌≡◌, length};
ghost use Rattle.owners.specs.Derived.{derived};
ghost use Rattle.job.specs.Stages.{ready};
ghost use Rattle.job.specs.Shown.{block_row, block_text};
ghost use Rattle.paper.specs.Rows.{refusal_of};
ghost use Rattle.records.specs.Puts.{Wrote};
ghost use Rattle.replay.specs.Stage.{stage_of, block_stage, StagedAs};

use crate::reading::read_block;
use crate::{BlockRead, Played};
use job::Ending;
use paper::Refusal;
use rota::replay::Replayed;

// The text of a block from the front of out, which has room for it; its length.
fn show(
    block: usize,
    people: usize,
    slots: usize,
    starts: &[u32],
    ends: &[u32],
    owners: &[u8],
    minutes: &[u64],
    targets: &[i64],
    out: &mut [u8],
) -> usize
    requires { (refusal_of (block_row people slots starts.now ends.now owners.now minutes.now targets.now (length out.old))).number ≡ 0 }
    ensures { Wrote (block_text block people slots starts.now ends.now owners.now
        minutes.now targets.now) 0 out.old result out.new }
{
    let answer = job::put_block(
        block, people, slots, starts, ends, owners, minutes, targets, out,
    );
    match answer {
        Ok(n) => n,
        Err(_) => 0,
    }
}

// The n draws of a block that was read, played on the rota up to the first whose answer differs, and shown.
fn play_read(
    block: usize,
    next: usize,
    people: usize,
    slots: usize,
    units: usize,
    count: usize,
    starts: &[u32],
    ends: &[u32],
    avail: &[u64],
    begins: &[u16],
    frozen: &[u64],
    targets: &[i64],
    draws: &[u16],
    firsts: &[u16],
    seconds: &[u16],
    recorded: &[u16],
    owners: &mut [u8],
    sets: &mut [u64],
    minutes: &mut [u64],
    totals: &mut [u64],
    out: &mut [u8],
) -> Played
    ensures { StagedAs (block_stage block next count draws.now firsts.now seconds.now
        recorded.now (ready people slots starts.now ends.now avail.now units
        begins.now frozen.now targets.now) owners.old (derived sets.old
        minutes.old totals.old) out.old) result owners.new (derived sets.new
        minutes.new totals.new) out.new }
{
    let short = job::block_refusal(
        people,
        slots,
        starts,
        ends,
        owners,
        minutes,
        targets,
        out.len(),
    );
    if short.number == 0 {
        match rota::replay::replay_block(
            people, slots, units, count, starts, ends, avail, begins, frozen, draws, firsts,
            seconds, recorded, owners, sets, minutes, totals,
        ) {
            Ok(Replayed::Agrees) => {
                let length = show(
                    block, people, slots, starts, ends, owners, minutes, targets, out,
                );
                Played::More { length, next }
            }
            Ok(Replayed::Differs(place)) => {
                let length = show(
                    block, people, slots, starts, ends, owners, minutes, targets, out,
                );
                Played::Last {
                    length,
                    end: Ending::Differs { block, place },
                }
            }
            Err(f) => Played::Last {
                length: 0,
                end: Ending::Refused(f),
            },
        }
    } else {
        Played::Last {
            length: 0,
            end: Ending::Refused(short),
        }
    }
}

// The block at the front of t, the one of this number: read whole, then played and shown. Refusals 13 and 1 by its first faulty record; 1, 2, 9, 10.
pub fn play_block(
    t: &[u8],
    block: usize,
    people: usize,
    slots: usize,
    units: usize,
    starts: &[u32],
    ends: &[u32],
    avail: &[u64],
    begins: &[u16],
    frozen: &[u64],
    targets: &[i64],
    owners: &mut [u8],
    sets: &mut [u64],
    minutes: &mut [u64],
    totals: &mut [u64],
    out: &mut [u8],
) -> Played
    ensures { StagedAs (stage_of t.now block (ready people slots starts.now ends.now
        avail.now units begins.now frozen.now targets.now) owners.old
        (derived sets.old minutes.old totals.old) out.old) result owners.new
        (derived sets.new minutes.new totals.new) out.new }
{
    let mut draws = [0u16; 1024];
    let mut firsts = [0u16; 1024];
    let mut seconds = [0u16; 1024];
    let mut recorded = [0u16; 1024];
    match read_block(
        t,
        block,
        &mut draws,
        &mut firsts,
        &mut seconds,
        &mut recorded,
    ) {
        Ok(BlockRead::Block { draws: count, next }) => play_read(
            block, next, people, slots, units, count, starts, ends, avail, begins, frozen, targets,
            &draws, &firsts, &seconds, &recorded, owners, sets, minutes, totals, out,
        ),
        Ok(BlockRead::End) => Played::Last {
            length: 0,
            end: Ending::Agrees,
        },
        Err(n) => Played::Last {
            length: 0,
            end: Ending::Refused(Refusal {
                number: n,
                part: 0,
                place: 0,
                second: 0,
            }),
        },
    }
}
