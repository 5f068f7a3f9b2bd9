// Whether a rota made elsewhere may be used.
ghost use Rattle.std.specs.Prelude.{◌≡◌};
ghost use Rattle.usable.specs.Broken.{brought};
ghost use Rattle.usable.specs.Answers.{verdict_is};
ghost use Rattle.boltraven_c.specs.Usable.{verdict_number, verdict_slot};

use crate::refused;
use usable::Verdict;

// 0 where it may be used, else the first broken rule, 1 to 5, with its slot written where it was asked for; or the refusal.
fn put_verdict(verdict: Result<Verdict, u8>, out: &mut u64) -> u64
    ensures value { result ≡ verdict_number verdict }
    ensures out_after { out.new ≡ verdict_slot out.old verdict }
{
    match verdict {
        Ok(Verdict::Usable) => 0,
        Ok(Verdict::Broken { rule, slot }) => {
            *out = slot as u64;
            rule as u64
        }
        Err(n) => refused(n),
    }
}

// 0 where the rota may be used; the first broken rule, 1 to 5, with the lowest slot at which it shows behind the address; or the refusal.
#[unsafe(no_mangle)]
pub extern "C" fn boltraven_may_be_used(
    people: usize,
    slots: usize,
    units: usize,
    cap: u32,
    rest: u32,
    starts: &[u32],
    ends: &[u32],
    avail: &[u64],
    unit_starts: &[u16],
    frozen: &[u64],
    published: &[u8],
    owners: &[u8],
    slot: &mut u64,
) -> u64
    ensures value { result ≡ verdict_number
        (verdict_is (brought people slots units cap rest starts.now ends.now avail.now
        unit_starts.now frozen.now published.now owners.now)) }
    ensures slot_after { slot.new ≡ verdict_slot slot.old
        (verdict_is (brought people slots units cap rest starts.now ends.now avail.now
        unit_starts.now frozen.now published.now owners.now)) }
{
    let verdict = usable::may_be_used(
        people,
        slots,
        units,
        cap,
        rest,
        starts,
        ends,
        avail,
        unit_starts,
        frozen,
        published,
        owners,
    );
    put_verdict(verdict, slot)
}
