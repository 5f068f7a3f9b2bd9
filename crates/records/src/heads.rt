// The head of one record, for files whose kinds mix.
ghost use Rattle.std.specs.Prelude.{◌≡◌};
ghost use Rattle.records.specs.Heads.{head_at};

use crate::Head;
use crate::fields::number_at;

// The head of the record at `at`, where the record stands there whole.
pub fn head_at(s: &[u8], at: usize) -> Head
    ensures { result ≡ head_at s.now at }
{
    if s.len() < 4 || s.len() - 4 < at {
        return Head::Nothing;
    }
    let size = number_at(s, at, 2) as usize;
    if s.len() - at < 4 + size {
        return Head::Nothing;
    }
    let kind = number_at(s, at + 2, 2) as usize;
    Head::Whole { size, kind }
}
