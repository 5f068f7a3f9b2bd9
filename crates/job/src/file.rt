// Refusal 13: the layout of a job file.
ghost use Rattle.std.specs.Prelude.{◌≡◌, ◌+◌, ◌*◌, ◌≤◌, length};
ghost use Rattle.job.specs.File.{job_counts, job_starts, rising, rest_ok, file_ok};

use crate::owning::owner_slot;
use records::{Walked, walk};

// The most bytes of a job file.
pub const FILE_MOST: usize = 49152;

// Whether the slots of the n owner records from `at` on rise.
fn slots_rise(s: &[u8], at: usize, n: usize) -> bool
    requires { at + n * 8 ≤ length s.now }
    ensures { result ≡ rising s.now at n }
{
    for k in 0..n.saturating_sub(1) {
        if owner_slot(s, at, k) >= owner_slot(s, at, k + 1) {
            return false;
        }
    }
    true
}

// What a job file has, and whether its layout is kept.
pub(crate) fn read_file(s: &[u8]) -> Walked
    ensures ok_value { result.ok ≡ file_ok s.now }
    ensures counts_value { (result.counts ≡ job_counts s.now) × (result.starts ≡ job_starts s.now) }
{
    let sizes = [8u16, 8, 12, 10, 4, 4, 6, 0];
    let w = walk(s, 1, 7, sizes, FILE_MOST);
    let counts = w.counts;
    let starts = w.starts;
    let rest = rest_ok(s, counts[0], counts[4], starts[5], counts[5]);
    if w.ok {
        return Walked {
            ok: rest,
            counts,
            starts,
        };
    }
    Walked {
        ok: false,
        counts,
        starts,
    }
}

// One settings record; at most one freeze; the owners' slots rise.
#[tactic(auto, unfolding(crate::specs::File::rest_ok))]
fn rest_ok(s: &[u8], settings: usize, freezes: usize, at: usize, owners: usize) -> bool
    requires { at + owners * 8 ≤ length s.now }
    ensures { result ≡ rest_ok s.now settings freezes at owners }
{
    if settings == 1 {
        if freezes <= 1 {
            return slots_rise(s, at, owners);
        }
        return false;
    }
    false
}
