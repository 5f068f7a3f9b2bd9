// Settings as a record's body, read and written.
ghost use Rattle.std.specs.Prelude.{◌≡◌, true, ◌+◌, ◌≤◌, length, take};
ghost use Rattle.records.specs.Heads.{found_at};
ghost use Rattle.store.specs.Layout.{right_at, count_in};
ghost use Rattle.store.specs.Figures.{kept_of, kept_in, body_of};
ghost use Rattle.store.specs.Inside.{figures_at};

use crate::Kept;
use crate::walk::{used_part, walk};
use units::Settings;

// The six figures of a body of eight bytes.
fn figures_at(s: &[u8], at: usize) -> Settings
    requires { at + 12 ≤ length s.now }
    ensures { result ≡ figures_at s.now at }
{
    let value = records::field(s, at + 8, 2) as u16;
    let days = records::field(s, at + 10, 2) as u16;
    Settings {
        fairness: s[at + 4],
        lock: s[at + 5],
        boundary: s[at + 6],
        edition: s[at + 7],
        value,
        days,
    }
}

// What the right record at `at` holds.
fn kept_at(s: &[u8], at: usize) -> Kept
    requires { right_at s.now at ≡ true }
    ensures { result ≡ kept_of (found_at s.now at) }
{
    if 33 < records::field(s, at + 2, 2) {
        return Kept::Newer;
    }
    let figures = figures_at(s, at);
    Kept::Figures(figures)
}

// What a number stands for among the records that a walk counted.
pub(crate) fn kept_in(area: &[u8], used: usize, count: usize, number: usize) -> Kept
    requires { count ≡ count_in (take used area.now) }
    ensures { result ≡ kept_in (take used area.now) number }
{
    if number < 1 {
        return Kept::Unknown;
    }
    if count < number {
        return Kept::Unknown;
    }
    let s = used_part(area, used);
    let w = walk(s, number - 1);
    kept_at(s, w.end)
}

// The body of settings with their edition.
pub(crate) fn body_of(s: Settings) -> [u8; 8]
    ensures { result ≡ body_of s }
{
    [
        s.fairness,
        s.lock,
        s.boundary,
        s.edition,
        (s.value % 256) as u8,
        (s.value / 256 % 256) as u8,
        (s.days % 256) as u8,
        (s.days / 256 % 256) as u8,
    ]
}
