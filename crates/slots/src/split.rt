// Atomic slots: each base slot split at every cut strictly inside it. Cuts are found as the starts and ends of merged ranges.
ghost use Rattle.std.specs.Prelude.{◌≡◌, ◌∷◌, [], ◌++◌, ◌≤◌, ◌<◌, length, get_or, take, drop};
ghost use Rattle.paper.specs.Rows.{refusal_of};
ghost use Rattle.slots.specs.Lent.{SlotsSound};
ghost use Rattle.slots.specs.Ranges.{ranges};
ghost use Rattle.slots.specs.Atomic.{cuts_in, atom_starts, atom_ends, base, base_row, atomise_of, AtomsEnd};
ghost use Rattle.slots.specs.Inside.{NextCut, key_cut, nearer, Grown, HeldMerged, line_end, NextEdge, opens_from, opens, Opening};

use crate::{lent, ranges};
use paper::Refusal;

// A minute, where it lies strictly between two others; else the later of them.
fn nearer_of(after: u64, best: u64, t: u64) -> u64
    ensures { result ≡ nearer after best t }
{
    if after < t {
        if t < best {
            return t;
        }
    }
    best
}

// A place of the line after everybody's: 64 people's minutes on.
const LINE_END: u64 = 17_179_869_184;

// Where the merged range with number r opens; past the last, the line's end.
fn opens_from(keys: &[u64], n: usize, r: usize) -> u64
    requires { (n ≤ 1024) × (n ≤ length keys.now) }
    ensures { result ≡ opens_from keys.now n r }
{
    if r < n {
        return ranges::opens_at(keys[r]);
    }
    LINE_END
}

// The next edge: the first place of the line, past the given one, at which a merged range opens or closes. Of the first r ranges, which
// open by the given place, only the last can close past it; if it doesn't, the edge is where the next one opens.
fn next_edge(keys: &[u64], n: usize, r: usize, place: u64) -> u64
    requires held_merged { HeldMerged keys.now n × (place < line_end) }
    requires opening { Opening n (λ k. opens (get_or keys.now k 0)) place r }
    ensures { NextEdge (take n keys.now) place result }
{
    if 0 < r {
        let close = ranges::closes_at(keys[r - 1]);
        if place < close {
            return close;
        }
        return opens_from(keys, n, r);
    }
    opens_from(keys, n, r)
}

// The first cut strictly between two minutes, or the later of them: the nearest of everybody's. A person's ranges come after those of the
// people before them on the line, so the search for theirs starts where the last one ended.
fn next_cut(keys: &[u64], n: usize, after: u64, end: u64) -> u64
    requires { HeldMerged keys.now n × (after < end) × (end ≤ 100000000) }
    ensures { NextCut (key_cut (take n keys.now)) after end result }
{
    // where nobody has a range nothing cuts
    if n == 0 {
        return end;
    }
    let mut best = end;
    let mut opened: usize = 0;
    for person in 0..32u64 {
        let base = person * ranges::WIDTH;
        opened = ranges::opened_by(keys, n, opened, base + after);
        let edge = next_edge(keys, n, opened, base + after);
        best = nearer_of(after, best, edge - base);
    }
    best
}

// The pieces of one base slot go to the lists' ends. Gives the number in the lists then; None where there is no room.
fn split_slot(
    keys: &[u64],
    n: usize,
    start: u32,
    end: u32,
    starts: &mut [u32],
    ends: &mut [u32],
    count: usize,
) -> Option<usize>
    requires held_merged { HeldMerged keys.now n × (start < end) × (end ≤ 100000000) }
    requires count_bound { (count ≤ 1024) × (1024 ≤ length starts.old) × (1024 ≤ length ends.old) }
    ensures { Grown count starts.old ends.old
        (start ∷ cuts_in (key_cut (take n keys.now)) start end)
        (cuts_in (key_cut (take n keys.now)) start end ++ (end ∷ []))
        result starts.new ends.new }
{
    let mut prev = start;
    for m in count..paper::SLOTS_MOST {
        let cut = next_cut(keys, n, prev as u64, end as u64) as u32;
        starts[m] = prev;
        ends[m] = cut;
        if end <= cut {
            return Some(m + 1);
        }
        prev = cut;
    }
    None
}

// The pieces of all base slots. Gives their number; None where there is no room.
fn split_all(
    keys: &[u64],
    n: usize,
    slots: usize,
    starts: &[u32],
    ends: &[u32],
    froms: &mut [u32],
    tos: &mut [u32],
) -> Option<usize>
    requires held_merged { HeldMerged keys.now n × SlotsSound slots starts.now ends.now }
    requires slots_bound { (slots ≤ 1024) × (1024 ≤ length froms.old) × (1024 ≤ length tos.old) }
    ensures { Grown 0 froms.old tos.old
        (atom_starts (key_cut (take n keys.now)) slots starts.now ends.now)
        (atom_ends (key_cut (take n keys.now)) slots starts.now ends.now)
        result froms.new tos.new }
{
    let mut count: usize = 0;
    for i in 0..slots {
        count = split_slot(keys, n, starts[i], ends[i], froms, tos, count)?;
    }
    Some(count)
}

// The first n entries of one column go to another.
fn copy_column(src: &[u32], n: usize, column: &mut [u32])
    requires { (n ≤ length src.now) × (n ≤ length column.old) }
    ensures { column.new ≡ take n src.now ++ drop n column.old }
{
    column[..n].copy_from_slice(&src[..n]);
}

// A column with nothing in it yet.
fn blank_column() -> [u32; 1024] {
    [0u32; 1024]
}

// What is wrong with what splitting takes: 1 to 4.
fn base_refusal(
    people: usize,
    slots: usize,
    count: usize,
    starts: &[u32],
    ends: &[u32],
    persons: &[u16],
    opens: &[u32],
    shuts: &[u32],
    froms: &[u32],
    tos: &[u32],
) -> Refusal
    ensures { result ≡ refusal_of (base_row (base slots starts.now ends.now people
        (ranges count persons.now opens.now shuts.now) froms.now tos.now)) }
{
    let f = paper::check_people(paper::accepted(), people);
    let f = paper::check_slots(f, slots);
    let f = ranges::check_range_count(f, count);
    let f = lent::check_room(f, slots, starts, ends);
    let f = ranges::check_range_room(f, count, persons, opens, shuts);
    let f = lent::check_room(f, paper::SLOTS_MOST, froms, tos);
    let f = lent::check_order(f, slots, starts, ends, 3);
    ranges::check_ranges(f, people, count, persons, opens, shuts)
}

// The base slots split at every start and end of a merged range that lies strictly inside one, with their number. Refusals 1 to 5.
pub fn atomise(
    people: usize,
    slots: usize,
    count: usize,
    starts: &[u32],
    ends: &[u32],
    persons: &[u16],
    opens: &[u32],
    shuts: &[u32],
    froms: &mut [u32],
    tos: &mut [u32],
) -> Result<usize, u8>
    ensures { AtomsEnd
        (atomise_of (base slots starts.now ends.now people
        (ranges count persons.now opens.now shuts.now) froms.old tos.old))
        result froms.new tos.new }
{
    let number = base_refusal(
        people, slots, count, starts, ends, persons, opens, shuts, froms, tos,
    )
    .number;
    if number == 0 {
        let list = ranges::merged_keys(count, persons, opens, shuts);
        let keys = list.keys;
        let n = list.count;
        let mut s = blank_column();
        let mut e = blank_column();
        let Some(atoms) = split_all(&keys, n, slots, starts, ends, &mut s, &mut e) else {
            return Err(5);
        };
        copy_column(&s, atoms, froms);
        copy_column(&e, atoms, tos);
        return Ok(atoms);
    }
    Err(number)
}
