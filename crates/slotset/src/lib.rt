// A set of up to 1,024 slots: slot i is bit i mod 64 of word i div 64. Bits at or past the length are ignored and never written.
// A set by value is 16 words and a length; a row is one person's 16 words among lent ones (module `row`).
#![tactic(auto)]

pub mod bit;
pub mod listing;
pub mod one;
pub mod row;
mod scan;
mod word;

ghost use Rattle.std.specs.Prelude.{◌≡◌};
ghost use Rattle.paper.specs.Limits.{test};
ghost use Rattle.paper.specs.Rows.{refusal_of, next, answer_as};
ghost use Rattle.slotset.specs.Slots.{value_of};
ghost use Rattle.slotset.specs.Answers.{length_row, slot_row, stretch_ok, stretch_row, new_of, put_of, stretch_of};
ghost use Rattle.slotset.specs.Answers.{len_is, contains_is, is_empty_is, count_is, next_set_is, prev_set_is, next_unset_after_is};
ghost use Rattle.slotset.specs.Answers.{prev_unset_before_is, run_bounds_is, next_run_is, next_member_is};

use paper::Refusal;

// A set: its words, and how many slots it has.
#[derive(Clone, Copy)]
pub struct SlotSet {
    pub words: [u64; 16],
    pub len: usize,
}

// A set after a change. The number is 0, or that of the refusal, and then the set is as it was.
#[derive(Clone, Copy)]
pub struct Changed {
    pub set: SlotSet,
    pub number: u8,
}

// The stretch that holds a slot, both ends in it: a run of members, or a hole between them; or Outside, of a slot at or past the length.
#[derive(Clone, Copy)]
pub enum Run {
    Span { first: usize, last: usize },
    Hole { first: usize, last: usize },
    Outside,
}

// Where a reader stands.
#[derive(Clone, Copy)]
pub struct Cursor {
    pub at: usize,
}

// A run that was read, both ends in it, with the cursor one past it.
#[derive(Clone, Copy)]
pub struct NextRun {
    pub first: usize,
    pub last: usize,
    pub next: Cursor,
}

// A member that was read, with the cursor one past it.
#[derive(Clone, Copy)]
pub struct NextMember {
    pub at: usize,
    pub next: Cursor,
}

// What stands against a length: 1.
fn len_refusal(len: usize) -> Refusal
    ensures { result ≡ refusal_of (length_row len) }
{
    paper::check(paper::accepted(), len <= paper::SLOTS_MOST, 1)
}

// What stands against an index to insert or remove: 1 or 11.
fn slot_refusal(len: usize, i: usize) -> Refusal
    ensures { result ≡ refusal_of (slot_row len i) }
{
    let f = paper::check(paper::accepted(), len <= paper::SLOTS_MOST, 1);
    paper::check(f, i < len, 11)
}

// Whether each slot from `from` up to `to` is below the length; a stretch with none in it is.
fn stretch_ok(len: usize, from: usize, to: usize) -> bool
    ensures { result ≡ stretch_ok len from to }
{
    if to <= from {
        return true;
    }
    to <= len
}

// Rule 11 of a stretch.
pub(crate) fn check_stretch(before: Refusal, len: usize, from: usize, to: usize) -> Refusal
    ensures { result ≡ next before (test 11 (stretch_ok len from to)) }
{
    paper::check(before, stretch_ok(len, from, to), 11)
}

// What stands against a stretch: 1 or 11.
fn stretch_refusal(len: usize, from: usize, to: usize) -> Refusal
    ensures { result ≡ refusal_of (stretch_row len from to) }
{
    let f = paper::check(paper::accepted(), len <= paper::SLOTS_MOST, 1);
    check_stretch(f, len, from, to)
}

impl SlotSet {
    // The empty set of len slots; refused, the empty set of none.
    pub fn new(len: usize) -> Changed
        ensures { result ≡ new_of len }
    {
        let words = [0u64; 16];
        let number = len_refusal(len).number;
        if number == 0 {
            return Changed {
                set: SlotSet { words, len },
                number,
            };
        }
        Changed {
            set: SlotSet { words, len: 0 },
            number,
        }
    }

    // How many slots the set ranges over.
    pub fn len(self) -> Result<usize, u8>
        ensures { result ≡ len_is self }
    {
        let len = self.len;
        let number = len_refusal(len).number;
        if number == 0 {
            return Ok(len);
        }
        Err(number)
    }

    // Whether slot i is a member; at or past the length it is not.
    pub fn contains(self, i: usize) -> Result<bool, u8>
        ensures { result ≡ contains_is self i }
    {
        let len = self.len;
        let number = len_refusal(len).number;
        if number == 0 {
            let words = self.words;
            return Ok(scan::contains(&words, 0, len, i));
        }
        Err(number)
    }

    // The set with slot i.
    pub fn insert(self, i: usize) -> Changed
        ensures { result ≡ put_of 1 self i }
    {
        self.put(i, true)
    }

    // The set without slot i.
    pub fn remove(self, i: usize) -> Changed
        ensures { result ≡ put_of 0 self i }
    {
        self.put(i, false)
    }

    // The set with every slot from `from` up to `to`, without `to`.
    pub fn insert_stretch(self, from: usize, to: usize) -> Changed
        ensures { result ≡ stretch_of 1 self from to }
    {
        self.put_stretch(from, to, true)
    }

    // The set without any slot from `from` up to `to`, without `to`.
    pub fn remove_stretch(self, from: usize, to: usize) -> Changed
        ensures { result ≡ stretch_of 0 self from to }
    {
        self.put_stretch(from, to, false)
    }

    // The set with slot i as wanted.
    fn put(self, i: usize, want: bool) -> Changed
        ensures { result ≡ put_of (value_of want) self i }
    {
        let len = self.len;
        let number = slot_refusal(len, i).number;
        if number == 0 {
            let mut words = self.words;
            scan::put_slots(&mut words, 0, want, i, i + 1);
            return Changed {
                set: SlotSet { words, len },
                number,
            };
        }
        Changed { set: self, number }
    }

    // The set with every slot from `from` up to `to` as wanted.
    fn put_stretch(self, from: usize, to: usize, want: bool) -> Changed
        ensures { result ≡ stretch_of (value_of want) self from to }
    {
        let len = self.len;
        let number = stretch_refusal(len, from, to).number;
        if number == 0 {
            let mut words = self.words;
            scan::put_slots(&mut words, 0, want, from, to);
            return Changed {
                set: SlotSet { words, len },
                number,
            };
        }
        Changed { set: self, number }
    }

    // Whether the set has no member.
    pub fn is_empty(self) -> Result<bool, u8>
        ensures { result ≡ is_empty_is self }
    {
        let len = self.len;
        let number = len_refusal(len).number;
        if number == 0 {
            let words = self.words;
            return Ok(scan::is_empty(&words, 0, len));
        }
        Err(number)
    }

    // How many members the set has.
    pub fn count(self) -> Result<usize, u8>
        ensures { result ≡ count_is self }
    {
        let len = self.len;
        let number = len_refusal(len).number;
        if number == 0 {
            let words = self.words;
            return Ok(scan::count(&words, 0, len));
        }
        Err(number)
    }

    // The first member at or after `from`.
    pub fn next_set(self, from: usize) -> Result<Option<usize>, u8>
        ensures { result ≡ next_set_is self from }
    {
        let len = self.len;
        let number = len_refusal(len).number;
        if number == 0 {
            let words = self.words;
            return Ok(scan::next_with(&words, 0, len, true, from));
        }
        Err(number)
    }

    // The last member at or before `from`.
    pub fn prev_set(self, from: usize) -> Result<Option<usize>, u8>
        ensures { result ≡ prev_set_is self from }
    {
        let len = self.len;
        let number = len_refusal(len).number;
        if number == 0 {
            let words = self.words;
            return Ok(scan::prev_set(&words, 0, len, from));
        }
        Err(number)
    }

    // The first slot after `from`, below the length, that is no member.
    pub fn next_unset_after(self, from: usize) -> Result<Option<usize>, u8>
        ensures { result ≡ next_unset_after_is self from }
    {
        let len = self.len;
        let number = len_refusal(len).number;
        if number == 0 {
            let words = self.words;
            return Ok(scan::next_unset_after(&words, 0, len, from));
        }
        Err(number)
    }

    // The last slot before `from`, below the length, that is no member.
    pub fn prev_unset_before(self, from: usize) -> Result<Option<usize>, u8>
        ensures { result ≡ prev_unset_before_is self from }
    {
        let len = self.len;
        let number = len_refusal(len).number;
        if number == 0 {
            let words = self.words;
            return Ok(scan::last_below(&words, 0, len, false, from));
        }
        Err(number)
    }

    // The run that holds slot i, or the hole.
    pub fn run_bounds(self, i: usize) -> Result<Run, u8>
        ensures { result ≡ run_bounds_is self i }
    {
        let len = self.len;
        let number = len_refusal(len).number;
        if number == 0 {
            let words = self.words;
            return Ok(scan::run_bounds(&words, 0, len, i));
        }
        Err(number)
    }

    // The reader of runs: the next one from the cursor on.
    pub fn next_run(self, c: Cursor) -> Result<Option<NextRun>, u8>
        ensures { result ≡ next_run_is self c.at }
    {
        let len = self.len;
        let at = c.at;
        let number = len_refusal(len).number;
        if number == 0 {
            let words = self.words;
            return Ok(scan::next_run(&words, 0, len, at));
        }
        Err(number)
    }

    // The reader of single members: the next one from the cursor on.
    pub fn next_member(self, c: Cursor) -> Result<Option<NextMember>, u8>
        ensures { result ≡ next_member_is self c.at }
    {
        let len = self.len;
        let at = c.at;
        let number = len_refusal(len).number;
        if number == 0 {
            let words = self.words;
            return Ok(scan::next_member(&words, 0, len, at));
        }
        Err(number)
    }
}
