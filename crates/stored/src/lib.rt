// Reading stored answers: the numbers of a record, low byte first, and the tally of what was compared. The programs `stored_*` use it.
#![tactic(auto)]

ghost use Rattle.std.specs.Prelude.{◌≡◌, ◌+◌, ◌<◌, ◌≤◌, ◌==◌, ◌&&◌, min, true, false, if◌then◌else◌, nat_eq, length, slice_index, take};
ghost use Rattle.std.specs.Io.{ReadsAtMost};
ghost use Rattle.stored.specs.Numbers.{further, little_at, four_after, above, above_yes};
ghost use Rattle.stored.specs.Columns.{filled, bytes_filled, row_word, rows_filled, same, front, unwritten};

use std::io;
use std::io::{Print, Read};

// How many answers were compared, and how many differ.
#[derive(Clone, Copy)]
pub struct Tally {
    pub compared: u64,
    pub differing: u64,
}

impl Tally {
    // Nothing compared yet.
    pub fn none() -> Tally
        ensures { (result.compared ≡ 0) × (result.differing ≡ 0) }
    {
        Tally {
            compared: 0,
            differing: 0,
        }
    }

    // One answer more.
    pub fn with(self, same: bool) -> Tally
        ensures { (result.compared ≡ further self.compared 1) × (result.differing ≡ further self.differing (if same then 0 else 1)) }
    {
        Tally {
            compared: self.compared.wrapping_add(1),
            differing: self.differing.wrapping_add(u64::from(!same)),
        }
    }
}

// The tally after a turn of a comparison, and whether the input may go on.
#[derive(Clone, Copy)]
pub struct Turn {
    pub tally: Tally,
    pub more: bool,
}

impl Turn {
    // After a record that came whole.
    pub fn whole(tally: Tally) -> Turn
        ensures { (result.tally ≡ tally) × (result.more ≡ true) }
    {
        Turn { tally, more: true }
    }

    // After the input ended with `left` bytes that are no whole record: part of a record is a damaged input, and counts as a difference.
    pub fn last(tally: Tally, left: usize) -> Turn
        ensures { (result.tally.compared ≡ (if nat_eq left 0 then tally.compared else further tally.compared 1))
            × ((result.tally.differing ≡ (if nat_eq left 0 then tally.differing else further tally.differing 1)) × (result.more ≡ false)) }
    {
        Turn {
            tally: if left == 0 { tally } else { tally.with(false) },
            more: false,
        }
    }
}

// Reads until buf is full or the input ends; how many bytes came.
pub fn read_full<R: Read>(from: &mut R, buf: &mut [u8]) -> io::Result<usize>
    ensures { ReadsAtMost result buf.new }
{
    let mut done: usize = 0;
    // a while: each step is as long as what a read brought, so no range is walked
    while done < buf.len() {
        let n = from.read(&mut buf[done..])?;
        if n == 0 {
            break;
        }
        done += n;
    }
    Ok(done)
}

// The turn of a record of which `got` bytes came: its answers where it came whole, else the last.
fn one_turn<F: Fn(Tally, &[u8]) -> Tally>(answers: &F, tally: Tally, b: &[u8], got: usize) -> Turn
    requires pre { (f : F) (t : _) (x : _) → F.pre f t x }
    ensures whole { got ≡ length b.now → F.post answers.now tally b.entry result.tally × (result.more ≡ true) }
    ensures last { (got == length b.now) ≡ false
        → (result.tally.compared ≡ (if nat_eq got 0 then tally.compared else further tally.compared 1))
        × ((result.tally.differing ≡ (if nat_eq got 0 then tally.differing else further tally.differing 1)) × (result.more ≡ false)) }
{
    if got == b.len() {
        Turn::whole(answers(tally, b))
    } else {
        Turn::last(tally, got)
    }
}

// Turns until the input ends. A proved loop has to end, so it takes as many turns at most as no input has.
pub fn compare<R: Read, F: FnMut(&mut R, Tally) -> io::Result<Turn>>(
    from: &mut R,
    mut one: F,
) -> io::Result<Tally>
    requires { F.IsAlwaysCallable one }
{
    let mut t = Tally::none();
    for _ in 0..u64::MAX {
        let last = one(from, t)?;
        t = last.tally;
        if !last.more {
            break;
        }
    }
    Ok(t)
}

// Every record of the input, each as long as the buffer.
pub fn compare_each<R: Read, F: Fn(Tally, &[u8]) -> Tally>(
    from: &mut R,
    buf: &mut [u8],
    answers: F,
) -> io::Result<Tally>
    requires pre { (f : F) (t : _) (x : _) → F.pre f t x }
{
    compare(
        from,
        |from, t|
            requires { (f : F) (t : _) (x : _) → F.pre f t x }
        {
            let got = read_full(from, buf)?;
            Ok(one_turn(&answers, t, buf, got))
        },
    )
}

// The records of a section, which begins with their number: part of a record is a damaged input, and counts as a difference.
pub fn compare_section<R: Read, F: Fn(Tally, &[u8]) -> Tally>(
    from: &mut R,
    buf: &mut [u8],
    answers: F,
) -> io::Result<Tally>
    requires { F.IsAlwaysCallable answers }
{
    let mut count = [0u8; 2];
    read_full(from, &mut count)?;
    let mut t = Tally::none();
    for _ in 0..half(&count, 0) {
        let got = read_full(from, buf)?;
        t = if got == buf.len() {
            answers(t, buf)
        } else {
            t.with(false)
        };
    }
    Ok(t)
}

// Reads n bytes to the front of a buffer, or as many as it has room for, and answers whether all came.
fn filled<R: Read>(from: &mut R, buf: &mut [u8], n: usize) -> io::Result<bool> {
    let k = n.min(buf.len());
    Ok(read_full(from, &mut buf[..k])? == k)
}

// Every record of a head and two bodies: the u16 at 0 in the head says how long the first body is, that at `second_at` how long the second.
// A record that ends in a body counts as a difference.
pub fn compare_bodies<R: Read, F: Fn(Tally, &[u8], &mut [u8], &[u8]) -> Tally>(
    from: &mut R,
    head: &mut [u8],
    second_at: usize,
    answers: F,
) -> io::Result<Tally>
    requires pre { (f : F) (t : _) (x : _) (y : _) (z : _) → F.pre f t x y z }
{
    compare(
        from,
        |from, t|
            requires { (f : F) (t : _) (x : _) (y : _) (z : _) → F.pre f t x y z }
        {
            let got = read_full(from, head)?;
            if got != head.len() {
                return Ok(Turn::last(t, got));
            }
            let mut first = [0u8; 65536];
            let mut second = [0u8; 65536];
            let n = half(head, 0);
            let m = half(head, second_at);
            // both are read, whether the first came whole or not
            let first_came = filled(from, &mut first, n)?;
            let second_came = filled(from, &mut second, m)?;
            if first_came && second_came {
                let to = at_most(n, first.len());
                let end = at_most(m, second.len());
                return Ok(Turn::whole(answers(t, head, &mut first[..to], &second[..end])));
            }
            Ok(Turn::last(t, got))
        },
    )
}

// Writes the line that a comparison ends with.
pub fn print(rt: &impl Print, t: Tally, of: &str) -> io::Result<()> {
    println!(rt;
        "{} answers{of} compared, {} differ",
        t.compared, t.differing
    )
}

// An index k further on: no index of a record is near the end of numbers.
pub fn plus(at: usize, k: usize) -> usize
    ensures { result ≡ further at k }
{
    at.wrapping_add(k)
}

// The byte k places after an index, or 0 past the end.
fn byte_after(b: &[u8], at: usize, k: usize) -> u64
    ensures { (result ≡ slice_index b.now (at + k)) × (result < 256) }
{
    if at < b.len() && k < b.len() - at {
        return u64::from(b[at + k]);
    }
    0
}

// The byte at an index, or 0 past the end.
pub fn byte(b: &[u8], at: usize) -> u64
    ensures { result ≡ little_at 1 b.now at }
{
    byte_after(b, at, 0)
}

// Two bytes at an index.
fn pair(b: &[u8], at: usize) -> u64
    ensures { (result ≡ little_at 2 b.now at) × (result < 65536) }
{
    byte_after(b, at, 0) + 256 * byte_after(b, at, 1)
}

// The u16 at an index, as a count.
pub fn half(b: &[u8], at: usize) -> usize
    ensures { result ≡ little_at 2 b.now at }
{
    pair(b, at) as usize
}

// Four bytes from k places after an index.
fn four_after(b: &[u8], at: usize, k: usize) -> u64
    requires { k < 5 }
    ensures { (result ≡ four_after b.now at k) × (result < 4294967296) }
{
    byte_after(b, at, k)
        + 256 * byte_after(b, at, k + 1)
        + 65536 * byte_after(b, at, k + 2)
        + 16777216 * byte_after(b, at, k + 3)
}

// The byte at an index as it is, or 0 past the end.
pub fn raw(b: &[u8], at: usize) -> u8
    ensures { result ≡ slice_index b.now at }
{
    b.get(at).copied().unwrap_or(0)
}

// The u16 at an index, as a u16.
pub fn short(b: &[u8], at: usize) -> u16
    ensures { result ≡ little_at 2 b.now at }
{
    pair(b, at) as u16
}

// The u32 at an index.
pub fn quad(b: &[u8], at: usize) -> u32
    ensures { result ≡ little_at 4 b.now at }
{
    four_after(b, at, 0) as u32
}

// The u64 at an index.
pub fn word(b: &[u8], at: usize) -> u64
    ensures { result ≡ little_at 8 b.now at }
{
    four_after(b, at, 0) + 4294967296 * four_after(b, at, 4)
}

// The u64 at an index, as a count.
pub fn size(b: &[u8], at: usize) -> usize
    ensures { result ≡ little_at 8 b.now at }
{
    word(b, at) as usize
}

// A number, or the most that it may be.
pub fn at_most(n: usize, most: usize) -> usize
    ensures { (result ≡ min n most) × (result ≤ most) }
{
    n.min(most)
}

// Word j of rows of 16 words: the first of each row is stored, the others are garbage.
fn row_word(b: &[u8], at: usize, j: usize) -> u64
    ensures { result ≡ row_word b.now at j }
{
    if j % 16 == 0 {
        word(b, plus(at, 8 * (j / 16)))
    } else {
        0xa5a5_a5a5_a5a5_a5a5
    }
}

// Fills rows of 16 words, as slot sets are lent: the first word of each from an index on, garbage in the others.
#[tactic(auto, using(crate::proofs::Columns::fills))]
pub fn rows(b: &[u8], at: usize, out: &mut [u64])
    ensures { out.new ≡ rows_filled b.now at out.old }
{
    for (j, x) in out.iter_mut().enumerate() {
        *x = row_word(b, at, j);
    }
}

// Fills a column with the bytes from an index on.
#[tactic(auto, using(crate::proofs::Columns::fills))]
pub fn raws(b: &[u8], at: usize, out: &mut [u8])
    ensures { out.new ≡ bytes_filled b.now at out.old }
{
    for (j, x) in out.iter_mut().enumerate() {
        *x = raw(b, plus(at, j));
    }
}

// Fills a column with the u16 from an index on.
#[tactic(auto, using(crate::proofs::Columns::fills))]
pub fn shorts(b: &[u8], at: usize, out: &mut [u16])
    ensures { out.new ≡ filled 2 b.now at out.old }
{
    for (j, x) in out.iter_mut().enumerate() {
        *x = short(b, plus(at, 2 * j));
    }
}

// Fills a column with the u32 from an index on.
#[tactic(auto, using(crate::proofs::Columns::fills))]
pub fn quads(b: &[u8], at: usize, out: &mut [u32])
    ensures { out.new ≡ filled 4 b.now at out.old }
{
    for (j, x) in out.iter_mut().enumerate() {
        *x = quad(b, plus(at, 4 * j));
    }
}

// Fills a column with the u64 from an index on.
#[tactic(auto, using(crate::proofs::Columns::fills))]
pub fn words(b: &[u8], at: usize, out: &mut [u64])
    ensures { out.new ≡ filled 8 b.now at out.old }
{
    for (j, x) in out.iter_mut().enumerate() {
        *x = word(b, plus(at, 8 * j));
    }
}

// Whether two columns of u8 are the same.
#[tactic(auto, using(crate::proofs::Columns::by_equal))]
pub fn same_raws(a: &[u8], b: &[u8]) -> bool
    ensures { result ≡ same a.now b.now }
{
    a == b
}

// Whether two columns of u16 are the same.
#[tactic(auto, using(crate::proofs::Columns::by_equal))]
pub fn same_shorts(a: &[u16], b: &[u16]) -> bool
    ensures { result ≡ same a.now b.now }
{
    a == b
}

// Whether two columns of u32 are the same.
#[tactic(auto, using(crate::proofs::Columns::by_equal))]
pub fn same_quads(a: &[u32], b: &[u32]) -> bool
    ensures { result ≡ same a.now b.now }
{
    a == b
}

// Whether two columns of u64 are the same.
#[tactic(auto, using(crate::proofs::Columns::by_equal))]
pub fn same_words(a: &[u64], b: &[u64]) -> bool
    ensures { result ≡ same a.now b.now }
{
    a == b
}

// The first n entries of a column, or all where it has fewer.
fn front<T>(s: &[T], n: usize) -> &[T]
    ensures { result.now ≡ take (min n (length s.now)) s.now }
{
    &s[..n.min(s.len())]
}

// The same of a column of u16.
pub fn front_shorts(s: &[u16], n: usize) -> &[u16]
    ensures { result.now ≡ front n s.now }
{
    front(s, n)
}

// The same of a column of u32.
pub fn front_quads(s: &[u32], n: usize) -> &[u32]
    ensures { result.now ≡ front n s.now }
{
    front(s, n)
}

// The same of a column of u64.
pub fn front_words(s: &[u64], n: usize) -> &[u64]
    ensures { result.now ≡ front n s.now }
{
    front(s, n)
}

// Whether the first n bytes of a buffer are the whole text that is due.
pub fn same_text(got: &[u8], n: usize, due: &[u8]) -> bool
    ensures { result ≡ (n == min n (length got.now)) && same (take (min n (length got.now)) got.now) due.now }
{
    n <= got.len() && same_raws(front(got, n), due)
}

// Whether each byte from an index on is the one that a buffer was filled with. All of them are read: a walk that leaves early reads one
// at a time.
pub fn unwritten(out: &[u8], from: usize, fill: u8) -> bool
    ensures { result ≡ unwritten out.now from fill }
{
    let mut same = true;
    for j in from..out.len() {
        if out[j] != fill {
            same = false;
        }
    }
    same
}

// An answer among stored numbers: a refusal is its number above a base.
pub fn counted(answer: Result<usize, u8>, base: usize) -> usize
    ensures { result ≡ above base answer }
{
    answer.unwrap_or_else(|n| plus(base, usize::from(n)))
}

// Yes or no among them.
pub fn yes_no(answer: Result<bool, u8>, base: usize) -> usize
    ensures { result ≡ above_yes base answer }
{
    counted(answer.map(usize::from), base)
}

// A refusal's number alone among them, 0 for none.
pub fn refusal(n: u8, base: usize) -> usize
    ensures { result ≡ (if nat_eq n 0 then 0 else further base n) }
{
    if n == 0 {
        0
    } else {
        plus(base, usize::from(n))
    }
}

// A figure among stored figures.
pub fn figure(answer: Result<u64, u8>, base: u64) -> u64
    ensures { result ≡ above base answer }
{
    answer.unwrap_or_else(|n| base.wrapping_add(u64::from(n)))
}
