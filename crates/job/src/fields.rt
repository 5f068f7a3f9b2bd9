// Numbers in the bytes of a file, lowest byte first.
ghost use Rattle.std.specs.Prelude.{◌≡◌, ◌+◌, ◌≤◌, ◌<◌, ◌^◌, length};
ghost use Rattle.records.specs.Fields.{le};

// The number in the `width` bytes from `at` on, which all stand in s.
pub(crate) fn field(s: &[u8], at: usize, width: usize) -> u64
    requires { (at + width ≤ length s.now) × (width ≤ 8) }
    ensures { (result ≡ le width s.now at) × (result < 256 ^ width) }
{
    records::field(s, at, width)
}
