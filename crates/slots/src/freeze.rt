// Freezing at an instant.
ghost use Rattle.std.specs.Prelude.{◌≡◌, ℕ, ◌≤◌, ◌<◌, length, get_or};
ghost use Rattle.paper.specs.Rows.{refusal_of};
ghost use Rattle.slots.specs.Freeze.{freeze_row, freeze_of};
ghost use Rattle.slots.specs.Inside.{Opening};

use crate::lent;
use paper::Refusal;
use slotset::row;

// How many slots end at the instant or before it: they open the list, since ends ascend.
fn ended_by(slots: usize, ends: &[u32], instant: u32) -> usize
    requires { (slots ≤ 1024) × (slots ≤ length ends.now)
        × ((k j : ℕ) → k < j → j < slots → get_or ends.now k 0 ≤ get_or ends.now j 0) }
    ensures { Opening slots (λ k. get_or ends.now k 0) instant result }
{
    ends[..slots].partition_point(|end| *end <= instant)
}

// What is wrong with what freezing takes: 1, 2 or 9.
fn freeze_refusal(slots: usize, starts: &[u32], ends: &[u32], frozen: &[u64]) -> Refusal
    ensures { result ≡ refusal_of (freeze_row slots starts.now ends.now frozen.now) }
{
    let f = paper::check_slots(paper::accepted(), slots);
    let f = lent::check_room(f, slots, starts, ends);
    let f = paper::check_words(f, 1, frozen);
    lent::check_order(f, slots, starts, ends, 9)
}

// Marks each slot whose end is at or before the instant, clears no mark, and answers how many end by then. Refusals 1, 2, 9.
pub fn freeze_before(
    slots: usize,
    starts: &[u32],
    ends: &[u32],
    frozen: &mut [u64],
    instant: u32,
) -> Result<usize, u8>
    ensures { (result ≡ (freeze_of slots starts.now ends.now frozen.old instant).answer)
        × (frozen.new ≡ (freeze_of slots starts.now ends.now frozen.old instant).flags) }
{
    let number = freeze_refusal(slots, starts, ends, frozen).number;
    if number == 0 {
        let n = ended_by(slots, ends, instant);
        row::put_stretch(1, slots, frozen, 0, 0, n, true);
        return Ok(n);
    }
    Err(number)
}
