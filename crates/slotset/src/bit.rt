// One slot of a set among lent words, whatever is lent: a word that isn't there counts as 0.
ghost use Rattle.std.specs.Prelude.{◌≡◌, ◌*◌, eqb};
ghost use Rattle.slotset.specs.Slots.{slot};

use crate::word::bit;

// Whether slot k is in a person's set.
pub fn holds(words: &[u64], person: u8, k: usize) -> bool
    ensures { result ≡ eqb (slot words.now (16 * person) k) 1 }
{
    let j = paper::SET_WORDS * (person as usize) + k / 64;
    if j < words.len() {
        return bit(words[j], k % 64);
    }
    false
}
