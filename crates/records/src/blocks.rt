// The walk over records. A record is: body length u16, kind u16, body. Kinds never fall, so the records of a kind stand together.
ghost use Rattle.std.specs.Prelude.{◌≡◌, ◌+◌, ◌*◌, ◌≤◌, ◌<◌, length, replicate};
ghost use Rattle.paper.specs.Count.{over};
ghost use Rattle.records.specs.Records.{layout, kinds_most, record_at, block_count, block_at, count_of, walk_ok};

use crate::fields::number_at;

// How many records of one kind stand together, and where they end.
#[derive(Clone, Copy)]
pub(crate) struct Block {
    count: usize,
    end: usize,
}

// What a file has: whether it is laid out as it must be, and for each kind how many records, and where they begin.
#[derive(Clone, Copy)]
pub struct Walked {
    pub ok: bool,
    pub counts: [usize; 8],
    pub starts: [usize; 8],
}

// Whether a whole record of this kind and size stands at `at`.
fn record_at(s: &[u8], kind: usize, size: usize, at: usize) -> bool
    requires { (at ≤ length s.now) × (size < 65536) }
    ensures { result ≡ record_at s.now kind size at }
{
    if s.len() - at < 4 + size {
        return false;
    }
    number_at(s, at, 2) == size as u64 && number_at(s, at + 2, 2) == kind as u64
}

// The records of this kind and size that stand one after the other from `at` on.
fn block_from(s: &[u8], kind: usize, size: usize, at: usize) -> Block
    requires { (at ≤ length s.now) × (size < 65536) }
    ensures count_value { result.count ≡ block_count s.now kind size at }
    ensures end_value { (result.end ≡ at + result.count * (4 + size)) × (result.end ≤ length s.now) }
{
    let mut count: usize = 0;
    let mut end = at;
    // a while: each step jumps to the end of the record that was found, so no range is walked
    while record_at(s, kind, size, end) {
        count += 1;
        end += 4 + size;
    }
    Block { count, end }
}

// The walk: kinds first, first + 1 and on, `kinds` of them, kind first + i with a body of sizes[i] bytes; at most `limit` bytes.
fn walk_kinds(s: &[u8], first: u16, kinds: usize, sizes: [u16; 8], limit: usize) -> Walked
    requires { kinds ≤ 8 }
    ensures ok_value { result.ok ≡ walk_ok (layout first kinds sizes) limit s.now }
    ensures counts_value { result.counts ≡ over (count_of (layout first kinds sizes) s.now) kinds (replicate 8 0) }
    ensures starts_value { result.starts ≡ over (block_at (layout first kinds sizes) s.now) kinds (replicate 8 0) }
{
    let mut counts = [0usize; 8];
    let mut starts = [0usize; 8];
    let mut at: usize = 0;
    for i in 0..kinds {
        let b = block_from(s, first as usize + i, sizes[i] as usize, at);
        counts[i] = b.count;
        starts[i] = at;
        at = b.end;
    }
    Walked {
        ok: s.len() <= limit && at == s.len(),
        counts,
        starts,
    }
}

// The same; kinds past the eighth are not counted.
pub fn walk(s: &[u8], first: u16, kinds: usize, sizes: [u16; 8], limit: usize) -> Walked
    ensures ok_value { result.ok ≡ walk_ok (layout first (kinds_most kinds) sizes) limit s.now }
    ensures counts_value { result.counts ≡ over (count_of (layout first (kinds_most kinds) sizes) s.now) (kinds_most kinds)
        (replicate 8 0) }
    ensures starts_value { result.starts ≡ over (block_at (layout first (kinds_most kinds) sizes) s.now) (kinds_most kinds)
        (replicate 8 0) }
{
    walk_kinds(s, first, kinds.min(8), sizes, limit)
}
