// A reader of a person's runs that holds the lent words, as an iterator does. Each answer is that of the cursor by value.
// The functions over `Runs` are few and thin: each takes it apart and calls a function over plain parameters.
#![tactic(auto)]

ghost use Rattle.std.specs.Prelude.{◌≡◌, ◌≤◌, length};
ghost use Rattle.paper.specs.Limits.{number_of};
ghost use Rattle.paper.specs.Rows.{refusal_of};
ghost use Rattle.slotset.specs.Answers.{person_row, row_next_run};
ghost use Rattle.runs.specs.Listed.{runs_row, column, runs_of, all_runs_of};
ghost use Rattle.runs.specs.Reader.{cursor_after, reader_of, moved_to, next_of};

use paper::Refusal;
use slotset::{Cursor, NextRun, row};

// How many people; how long a set is; the lent words, a set a person; whose set is read; and where the reader stands.
#[derive(Clone, Copy)]
pub struct Runs<'a> {
    pub people: usize,
    pub len: usize,
    pub words: &'a [u64],
    pub person: usize,
    pub at: usize,
}

// The next run from `at` on.
fn run_at(
    people: usize,
    len: usize,
    words: &[u64],
    person: usize,
    at: usize,
) -> Result<Option<NextRun>, u8>
    ensures { result ≡ row_next_run words.now people person len at }
{
    row::next_run(people, len, words, person, Cursor { at })
}

// Where a reader that stood at `at` stands after an answer.
fn cursor_after(answer: Result<Option<NextRun>, u8>, at: usize) -> usize
    ensures { result ≡ cursor_after answer at }
{
    match answer {
        Ok(Some(run)) => run.next.at,
        Ok(None) | Err(_) => at,
    }
}

impl<'a> Runs<'a> {
    // A reader of a person's runs, at their beginning.
    pub fn new(people: usize, len: usize, words: &'a [u64], person: usize) -> Runs<'a>
        ensures { result ≡ reader_of words.entry people person len }
    {
        Runs {
            people,
            len,
            words,
            person,
            at: 0,
        }
    }

    // The next run, with the cursor one past it; or none.
    pub fn next(self) -> Result<Option<NextRun>, u8>
        ensures { result ≡ next_of self.entry }
    {
        run_at(self.people, self.len, self.words, self.person, self.at)
    }

    // The same reader at another place.
    pub fn moved(self, at: usize) -> Runs<'a>
        ensures { result ≡ moved_to self.entry at }
    {
        Runs { at, ..self }
    }

    // The next run, and the reader goes on past it: an iterator's step.
    pub fn advance(&mut self) -> Result<Option<NextRun>, u8>
        ensures { (result ≡ next_of self.old)
            × (self.new ≡ moved_to self.old (cursor_after result self.old.at)) }
    {
        let found = run_at(self.people, self.len, self.words, self.person, self.at);
        self.at = cursor_after(found, self.at);
        found
    }
}

// The next run from `at` on, by a reader made for it. Its parameters are plain, so whoever calls it needs no walk.
pub fn run_from(
    people: usize,
    len: usize,
    words: &[u64],
    person: usize,
    at: usize,
) -> Result<Option<NextRun>, u8>
    ensures { result ≡ row_next_run words.now people person len at }
{
    Runs::new(people, len, words, person).moved(at).next()
}

// What stands against a list of all runs in two columns of n and m entries: 1, 2 or 11.
fn list_refusal(
    people: usize,
    len: usize,
    words: &[u64],
    n: usize,
    m: usize,
    person: usize,
) -> Refusal
    ensures { result ≡ refusal_of (runs_row words.now people person len n m) }
{
    let f = paper::check(row::sets_refusal(people, len, words), len <= n, 2);
    let f = paper::check(f, len <= m, 2);
    paper::check(f, person < people, 11)
}

// The runs of a person, in order, into two columns with room for them; and how many there are.
fn list_runs(
    people: usize,
    len: usize,
    words: &[u64],
    firsts: &mut [u16],
    lasts: &mut [u16],
    person: usize,
) -> usize
    requires len_value { number_of (person_row words.now people person len) ≡ 0 }
    requires len_in_bounds { (len ≤ length firsts.old) × (len ≤ length lasts.old) }
    ensures { (result ≡ length (runs_of words.now person len))
        × ((firsts.new ≡ column (λ e. e.first) (runs_of words.now person len) 0 firsts.old)
        × (lasts.new ≡ column (λ e. e.last) (runs_of words.now person len) 0 lasts.old)) }
{
    let mut n: usize = 0;
    let mut at: usize = 0;
    // a while: each step jumps past the run found, so no range is walked
    while at < len {
        match run_from(people, len, words, person, at) {
            Ok(Some(run)) => {
                firsts[n] = run.first as u16;
                lasts[n] = run.last as u16;
                n += 1;
                at = run.next.at;
            }
            Ok(None) => return n,
            Err(_) => return n,
        }
    }
    n
}

// All runs of a person, ascending: the first slot of each in one column, the last in the other, and how many there are.
pub fn all_runs(
    people: usize,
    len: usize,
    words: &[u64],
    firsts: &mut [u16],
    lasts: &mut [u16],
    person: usize,
) -> Result<usize, u8>
    ensures { (result ≡ (all_runs_of words.now people person len firsts.old lasts.old).answer)
        × ((firsts.new ≡ (all_runs_of words.now people person len firsts.old lasts.old).firsts)
        × (lasts.new ≡ (all_runs_of words.now people person len firsts.old lasts.old).lasts)) }
{
    let number = list_refusal(people, len, words, firsts.len(), lasts.len(), person).number;
    if number == 0 {
        return Ok(list_runs(people, len, words, firsts, lasts, person));
    }
    Err(number)
}
