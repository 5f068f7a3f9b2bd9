// Numbers in bytes, lowest byte first.
ghost use Rattle.std.specs.Prelude.{◌≡◌, ◌+◌, ◌≤◌, ◌<◌, ◌^◌, length};
ghost use Rattle.records.specs.Fields.{le, field_at};

// The number in the `width` bytes from `at` on.
pub(crate) fn number_at(s: &[u8], at: usize, width: usize) -> u64
    requires { (at + width ≤ length s.now) × (width ≤ 8) }
    ensures { (result ≡ le width s.now at) × (result < 256 ^ width) }
{
    let mut value: u64 = 0;
    for left in (0..width).rev() {
        value = value * 256 + s[at + left] as u64;
    }
    value
}

// The same; 0 where the bytes don't all stand in s, or are more than eight.
pub fn field(s: &[u8], at: usize, width: usize) -> u64
    ensures { (result ≡ field_at width s.now at) × (result < 256 ^ width) }
{
    if width > 8 || s.len() < width || s.len() - width < at {
        return 0;
    }
    number_at(s, at, width)
}
