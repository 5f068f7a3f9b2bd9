// Writing one record into a lent buffer.
ghost use Rattle.std.specs.Prelude.{◌≡◌, ◌+◌, ◌≤◌, length};
ghost use Rattle.records.specs.Puts.{put};
ghost use Rattle.records.specs.Writes.{written, record_fits, with_record};

// The bytes of l, from `at` on.
fn put_bytes(area: &mut [u8], at: usize, l: &[u8])
    requires { at + length l.now ≤ length area.old }
    ensures { area.new ≡ put l.now at area.old }
{
    area[at..at + l.len()].copy_from_slice(l);
}

// A record of this kind and body from `at` on, where it has room; whether it has. A body has at most 65,535 bytes.
pub fn put_record(area: &mut [u8], at: usize, kind: u16, body: &[u8]) -> bool
    ensures { (result ≡ record_fits (written kind body.now) at area.old)
        × (area.new ≡ with_record (written kind body.now) at area.old) }
{
    let size = body.len();
    if 65535 < size {
        return false;
    }
    if area.len() < 4 + size || area.len() - (4 + size) < at {
        return false;
    }
    let head = [
        (size % 256) as u8,
        (size / 256 % 256) as u8,
        (kind % 256) as u8,
        (kind / 256 % 256) as u8,
    ];
    put_bytes(area, at, &head);
    put_bytes(area, at + 4, body);
    true
}
