// The fields of the records of a kind, as columns by value.
ghost use Rattle.std.specs.Prelude.{◌≡◌, ℕ, ◌+◌, ◌*◌, ◌≤◌, ◌<◌, length};
ghost use Rattle.std.specs.Float.{binary64};
ghost use Rattle.std.specs.Float.Ieee.{of_bits};
ghost use Rattle.job.specs.Columns.{column, float_column};

use crate::fields::field;

// The f64 of a pattern; every NaN pattern is a NaN.
fn float_of(bits: u64) -> f64
    ensures { result ≡ of_bits binary64 bits }
{
    if bits % 9223372036854775808 / 4503599627370496 == 2047 {
        if bits % 4503599627370496 == 0 {
            return f64::from_bits(bits);
        }
        return 0.0 / 0.0;
    }
    f64::from_bits(bits)
}

// n numbers of two bytes.
pub(crate) fn column16(s: &[u8], at: usize, stride: usize, n: usize) -> [u16; 1024]
    requires { (n ≤ 1024) × ((k : ℕ) → k < n → at + k * stride + 2 ≤ length s.now) }
    ensures { result ≡ column 2 s.now at stride n }
{
    let mut out = [0u16; 1024];
    for k in 0..n {
        out[k] = field(s, at + k * stride, 2) as u16;
    }
    out
}

// n numbers of four bytes.
pub(crate) fn column32(s: &[u8], at: usize, stride: usize, n: usize) -> [u32; 1024]
    requires { (n ≤ 1024) × ((k : ℕ) → k < n → at + k * stride + 4 ≤ length s.now) }
    ensures { result ≡ column 4 s.now at stride n }
{
    let mut out = [0u32; 1024];
    for k in 0..n {
        out[k] = field(s, at + k * stride, 4) as u32;
    }
    out
}

// n numbers of eight bytes, each the pattern of an f64.
pub(crate) fn column_f64(s: &[u8], at: usize, stride: usize, n: usize) -> [f64; 1024]
    requires { (n ≤ 1024) × ((k : ℕ) → k < n → at + k * stride + 8 ≤ length s.now) }
    ensures { result ≡ float_column s.now at stride n }
{
    let mut out = [0.0f64; 1024];
    for k in 0..n {
        out[k] = float_of(field(s, at + k * stride, 8));
    }
    out
}
