// One word of a set: shifts and masks, and the counts of ones and of zeros.
ghost use Rattle.std.specs.Prelude.{◌≡◌, ◌≤◌, ◌<◌, eqb};
ghost use Rattle.paper.specs.Bits.{bit_of};
ghost use Rattle.paper.specs.Count.{all};
ghost use Rattle.slotset.specs.Slots.{value_of};
ghost use Rattle.slotset.specs.Inside.{Wanted, FirstBit, LastBit, ones_below, Merged, Every};

// Whether bit k of w is set.
pub(crate) fn bit(w: u64, k: usize) -> bool
    requires { k < 64 }
    ensures { result ≡ eqb (bit_of w k) 1 }
{
    (w >> k) & 1 == 1
}

// The word whose set bits are those of w that are as wanted.
pub(crate) fn wanted(w: u64, want: bool) -> u64
    ensures { Wanted (value_of want) w result }
{
    if want { w } else { !w }
}

// The first bit of w from s on that is as wanted, or 64.
pub(crate) fn first_bit(w: u64, want: bool, s: usize) -> usize
    requires { s < 64 }
    ensures { FirstBit (value_of want) w s result }
{
    let x = wanted(w, want) & (!0u64 << s);
    u64::trailing_zeros(x) as usize
}

// One past the last bit of w up to s that is as wanted, or 0.
pub(crate) fn last_bit(w: u64, want: bool, s: usize) -> usize
    requires { s < 64 }
    ensures { LastBit (value_of want) w s result }
{
    let x = wanted(w, want) & (!0u64 >> (63 - s));
    64 - u64::leading_zeros(x) as usize
}

// How many of the k lowest bits of w are set.
pub(crate) fn ones_below(w: u64, k: usize) -> usize
    requires { k ≤ 64 }
    ensures { (result ≡ ones_below w k) × (result ≤ k) }
{
    if k < 64 {
        u64::count_ones(w & ((1u64 << k) - 1)) as usize
    } else {
        u64::count_ones(w) as usize
    }
}

// The word with the bits of x from s up to e, and those of w elsewhere.
pub(crate) fn merge(w: u64, x: u64, s: usize, e: usize) -> u64
    requires { (s < e) × (e ≤ 64) }
    ensures { Merged w x s e result }
{
    let mask = (!0u64 << s) & (!0u64 >> (64 - e));
    (w & !mask) | (x & mask)
}

// The word of which every bit is as wanted.
pub(crate) fn every(want: bool) -> u64
    ensures { Every (value_of want) result }
{
    if want { !0u64 } else { 0 }
}

// Whether the k lowest bits of two words are the same.
pub(crate) fn same_below(a: u64, b: u64, k: usize) -> bool
    requires { (0 < k) × (k ≤ 64) }
    ensures { result ≡ all k (λ i. eqb (bit_of a i) (bit_of b i)) }
{
    let mask = !0u64 >> (64 - k);
    a & mask == b & mask
}
