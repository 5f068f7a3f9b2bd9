// Rounding to whole minutes, and the guard of refusal 8.
ghost use Rattle.std.specs.Prelude.{◌≡◌, ◌≤◌, true, false};
ghost use Rattle.std.specs.Float.Ieee as Ieee;
ghost use Rattle.targets.specs.Figures.{zero_f};
ghost use Rattle.targets.specs.Passes.{rounded, within};

// Whether x is finite, and of size below 2 ^ 40.
pub(crate) fn is_within(x: f64) -> bool
    ensures { result ≡ within x }
{
    -1099511627776.0 < x && x < 1099511627776.0
}

// The nearest whole number, halves away from zero: half of the whole part of 2x, plus one. x + x is exact.
pub(crate) fn nearest(x: f64) -> u64
    requires { (Ieee.lt x zero_f ≡ false) × (within x ≡ true) }
    ensures { (result ≡ rounded x) × (result ≤ 1099511627776) }
{
    (std::num::truncating_f64_to_u64(x + x) + 1) / 2
}
