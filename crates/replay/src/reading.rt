// Reading a recording: where its job ends, and one block after the other, each from the front of the bytes that are lent.
ghost use Rattle.std.specs.Prelude.{◌≡◌, ◌+◌, ◌*◌, ◌≤◌, ◌<◌, length};
ghost use Rattle.replay.specs.Reading.{job_end, draw_at, close_at, fault_at, draw_fine, leading_draws, block_read};
ghost use Rattle.replay.specs.Reading.{draws_in, fields_of, columns_room, ReadsAs};

use crate::{BLOCKS_MOST, BlockRead};
use records::Head;

// Where the job's records end: at the first head of kind 8 or 9, else at the end of the bytes.
pub fn job_end(s: &[u8]) -> usize
    ensures { result ≡ job_end s.now }
{
    let mut at: usize = 0;
    // a while: each turn jumps to where the record ends, so no range is walked
    while 4 <= s.len() - at {
        let kind = records::field(s, at + 2, 2);
        if kind == 8 {
            return at;
        }
        if kind == 9 {
            return at;
        }
        let size = records::field(s, at, 2) as usize;
        if s.len() - at - 4 < size {
            return s.len();
        }
        at += 4 + size;
    }
    s.len()
}

// Whether a recorded draw stands at `at`, whole, with an answer of at most 2.
fn draw_at(t: &[u8], at: usize) -> bool
    ensures { result ≡ draw_at t.now at }
{
    let h = records::head_at(t, at);
    match h {
        Head::Whole { size, kind } => {
            if size == 8 {
                if kind == 8 {
                    return records::field(t, at + 10, 2) <= 2;
                }
                return false;
            }
            false
        }
        Head::Nothing => false,
    }
}

// Whether the close of a block stands at `at`.
fn close_at(t: &[u8], at: usize) -> bool
    ensures { result ≡ close_at t.now at }
{
    let h = records::head_at(t, at);
    match h {
        Head::Whole { size, kind } => {
            if size == 0 {
                return kind == 9;
            }
            false
        }
        Head::Nothing => false,
    }
}

// What stands against record j of the block: 13, 1 or nothing.
#[tactic(auto, using(crate::proofs::Records::fault_cases))]
fn fault_at(t: &[u8], blocks: usize, j: usize) -> u8
    requires { j ≤ 1024 }
    ensures { result ≡ fault_at t.now blocks j }
{
    let at = j * 12;
    if close_at(t, at) {
        if blocks < BLOCKS_MOST {
            return 0;
        }
        return 1;
    }
    if draw_at(t, at) {
        if blocks < BLOCKS_MOST {
            if j < paper::DRAWS_MOST {
                return 0;
            }
            return 1;
        }
        return 1;
    }
    13
}

// Whether record j of the block is a draw that nothing stands against.
fn draw_fine(t: &[u8], blocks: usize, j: usize) -> bool
    requires { j < 1024 }
    ensures { result ≡ draw_fine t.now blocks j }
{
    if draw_at(t, j * 12) {
        return blocks < BLOCKS_MOST;
    }
    false
}

// How many such draws lead.
fn leading_draws(t: &[u8], blocks: usize) -> usize
    ensures { (result ≡ leading_draws t.now blocks) × (result ≤ 1024) × (result * 12 ≤ length t.now) }
{
    for n in 0..paper::DRAWS_MOST {
        if !draw_fine(t, blocks, n) {
            return n;
        }
    }
    paper::DRAWS_MOST
}

// What stands at the front of t: a block, the end, or the number of the first faulty record.
fn block_at(t: &[u8], blocks: usize) -> Result<BlockRead, u8>
    ensures { (result ≡ block_read t.now blocks) × (draws_in result ≤ 1024) × (draws_in result * 12 ≤ length t.now) }
{
    if t.len() == 0 {
        return Ok(BlockRead::End);
    }
    let n = leading_draws(t, blocks);
    let f = fault_at(t, blocks, n);
    if f == 0 {
        return Ok(BlockRead::Block {
            draws: n,
            next: n * 12 + 4,
        });
    }
    Err(f)
}

// How many draws were read.
fn draws_in(r: Result<BlockRead, u8>) -> usize
    ensures { result ≡ draws_in r }
{
    match r {
        Ok(BlockRead::Block { draws, next: _ }) => draws,
        Ok(BlockRead::End) => 0,
        Err(_) => 0,
    }
}

// The number at `off` of each of n records.
fn read_fields(t: &[u8], off: usize, n: usize, out: &mut [u16])
    requires { (n ≤ 1024) × (n * 12 ≤ length t.now) × (off ≤ 10) × (n ≤ length out.old) }
    ensures { out.new ≡ fields_of t.now off n out.old }
{
    for j in 0..n {
        out[j] = records::field(t, j * 12 + off, 2) as u16;
    }
}

// Whether each column has room for n draws.
fn columns_room(n: usize, draws: &[u16], firsts: &[u16], seconds: &[u16], recorded: &[u16]) -> bool
    ensures { result ≡ columns_room n draws.now firsts.now seconds.now recorded.now }
{
    if n <= draws.len() {
        if n <= firsts.len() {
            if n <= seconds.len() {
                return n <= recorded.len();
            }
            return false;
        }
        return false;
    }
    false
}

// The block at the front of t, where `blocks` are closed before it, into four columns: the draws and the recorded answers. Refusals 13 and 1, by the
// first faulty record; 2.
pub fn read_block(
    t: &[u8],
    blocks: usize,
    draws: &mut [u16],
    firsts: &mut [u16],
    seconds: &mut [u16],
    recorded: &mut [u16],
) -> Result<BlockRead, u8>
    ensures { ReadsAs t.now blocks draws.old firsts.old seconds.old
        recorded.old result draws.new firsts.new seconds.new recorded.new }
{
    let r = block_at(t, blocks);
    let n = draws_in(r);
    if columns_room(n, draws, firsts, seconds, recorded) {
        read_fields(t, 4, n, draws);
        read_fields(t, 6, n, firsts);
        read_fields(t, 8, n, seconds);
        read_fields(t, 10, n, recorded);
        return r;
    }
    Err(2)
}
