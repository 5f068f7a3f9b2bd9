// Everybody's runs in one call: how many each person has, and in two columns the first and the last slot of each.
ghost use Rattle.std.specs.Prelude.{◌≡◌, ◌+◌, ◌*◌, ◌≤◌, length};
ghost use Rattle.paper.specs.Count.{over};
ghost use Rattle.paper.specs.Rows.{refusal_of};
ghost use Rattle.slotset.specs.Slots.{slot};
ghost use Rattle.slotset.specs.Runs.{ends_of_runs};
ghost use Rattle.slotset.specs.Lists.{every_run_row, person_runs, every_run, column, every_run_of};

use crate::{row, scan};
use paper::Refusal;

// What stands against everybody's runs in columns of so many entries: 1 or 2. The product is made only of counts that pass.
fn lists_refusal(
    people: usize,
    len: usize,
    words: &[u64],
    counts: usize,
    firsts: usize,
    lasts: usize,
) -> Refusal
    ensures { result ≡ refusal_of (every_run_row words.now people len counts firsts lasts) }
{
    let f = row::sets_refusal(people, len, words);
    if f.number == 0 {
        let most = people * len;
        let f = paper::check(f, people <= counts, 2);
        let f = paper::check(f, most <= firsts, 2);
        return paper::check(f, most <= lasts, 2);
    }
    f
}

// The runs of the set from word `base` on, in order, into both columns from entry `from` on; and one past the last of them.
fn list_set(
    len: usize,
    words: &[u64],
    firsts: &mut [u16],
    lasts: &mut [u16],
    base: usize,
    from: usize,
) -> usize
    requires base_in_bounds { (base + 16 ≤ length words.now) × (len ≤ 1024) }
    requires len_in_bounds { (from + len ≤ length firsts.old) × (from + len ≤ length lasts.old) }
    ensures { (result ≡ from + length (ends_of_runs (slot words.now base) len))
        × ((firsts.new ≡ column (λ e. e.first) (ends_of_runs (slot words.now base) len) from firsts.old)
        × (lasts.new ≡ column (λ e. e.last) (ends_of_runs (slot words.now base) len) from lasts.old)) }
{
    let mut n = from;
    let mut at: usize = 0;
    // a while: each step jumps past the run found, so no range is walked
    while at < len {
        match scan::next_with(words, base, len, true, at) {
            Some(first) => {
                let last = scan::end_of(scan::next_with(words, base, len, false, first + 1), len);
                firsts[n] = first as u16;
                lasts[n] = last as u16;
                n += 1;
                at = last + 1;
            }
            None => {
                return n;
            }
        }
    }
    n
}

// Each person's, one after the other; and how many there are.
fn list_sets(
    people: usize,
    len: usize,
    words: &[u64],
    counts: &mut [u16],
    firsts: &mut [u16],
    lasts: &mut [u16],
) -> usize
    requires people_bound { ((people ≤ 32) × (len ≤ 1024)) × ((16 * people ≤ length words.now) × (people ≤ length counts.old)) }
    requires len_in_bounds { (people * len ≤ length firsts.old) × (people * len ≤ length lasts.old) }
    ensures { (result ≡ length (every_run words.now len people))
        × (counts.new ≡ over (λ p. length (person_runs words.now len p)) people counts.old)
        × (firsts.new ≡ column (λ e. e.first) (every_run words.now len people) 0 firsts.old)
        × (lasts.new ≡ column (λ e. e.last) (every_run words.now len people) 0 lasts.old) }
{
    let mut n: usize = 0;
    for p in 0..people {
        let next = list_set(len, words, firsts, lasts, paper::SET_WORDS * p, n);
        counts[p] = (next - n) as u16;
        n = next;
    }
    n
}

// Everybody's runs, person by person, each ascending; and how many there are. Refusals 1, 2.
pub fn every_run(
    people: usize,
    len: usize,
    words: &[u64],
    counts: &mut [u16],
    firsts: &mut [u16],
    lasts: &mut [u16],
) -> Result<usize, u8>
    ensures value { result ≡ (every_run_of words.now people len counts.old firsts.old lasts.old
        ).answer }
    ensures counts_after { counts.new ≡ (every_run_of words.now people len counts.old firsts.old lasts.old).counts }
    ensures firsts_after { firsts.new ≡ (every_run_of words.now people len counts.old firsts.old lasts.old).firsts }
    ensures lasts_after { lasts.new ≡ (every_run_of words.now people len counts.old firsts.old lasts.old).lasts }
{
    let number = lists_refusal(people, len, words, counts.len(), firsts.len(), lasts.len()).number;
    if number == 0 {
        return Ok(list_sets(people, len, words, counts, firsts, lasts));
    }
    Err(number)
}
