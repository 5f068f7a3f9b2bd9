// The walk over a store's records, right ones alone.
ghost use Rattle.std.specs.Prelude.{◌≡◌, cond, ◌+◌, ◌≤◌, length, take, Some, None};
ghost use Rattle.records.specs.Fields.{le};
ghost use Rattle.records.specs.Heads.{found_at, place_of};
ghost use Rattle.store.specs.Layout.{record_right, right_at, count_up_to};
ghost use Rattle.store.specs.Inside.{Headed};

use records::Head;

// How many right records stand one after the other from the first byte on, and where they end.
#[derive(Clone, Copy)]
pub(crate) struct Walked {
    pub(crate) count: usize,
    pub(crate) end: usize,
}

// Whether a record of this size and kind is one that a store may have.
fn record_right(s: &[u8], size: usize, kind: usize, at: usize) -> bool
    requires { Headed s.now size kind at }
    ensures { result ≡ record_right (found_at s.now at) }
{
    if kind < 32 {
        return false;
    }
    if 63 < kind {
        return false;
    }
    if 33 < kind {
        return true;
    }
    if size == 8 {
        if kind == 33 {
            return true;
        }
        return s[at + 7] == 0;
    }
    false
}

// How many bytes the right record at `at` has; None where none stands there.
fn step_at(s: &[u8], at: usize) -> Option<usize>
    ensures { result ≡ cond (right_at s.now at) (Some (4 + le 2 s.now at)) None }
{
    match records::head_at(s, at) {
        Head::Whole { size, kind } if record_right(s, size, kind, at) => Some(4 + size),
        _ => None,
    }
}

// The walk, up to `most` records.
pub(crate) fn walk(s: &[u8], most: usize) -> Walked
    ensures { (result.count ≡ count_up_to s.now most) × (result.end ≡ place_of s.now result.count) }
{
    let mut at: usize = 0;
    for count in 0..most {
        match step_at(s, at) {
            Some(step) => at += step,
            None => return Walked { count, end: at },
        }
    }
    Walked {
        count: most,
        end: at,
    }
}

// The used bytes of an area; all of it where it is shorter.
pub(crate) fn used_part(area: &[u8], used: usize) -> &[u8]
    ensures { result.now ≡ take used area.now }
{
    &area[..used.min(area.len())]
}
