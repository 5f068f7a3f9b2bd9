// The library's answers as numbers: below 65,536 what was asked, 65,536 nothing, 65,536 + n refused by n. Minutes and covered days may be
// larger: they are written through an address, beside the number of the refusal, or 0. A refusal that may name a place is one number.
ghost use Rattle.std.specs.Prelude.{◌≡◌};
ghost use Rattle.paper.specs.Rows.{answer_refusal};
ghost use Rattle.boltraven_c.specs.Numbers.{refusal_number, found_number, yes_no_number, plain_number, number_is, minutes_written};

use crate::{NOTHING, refused};
use paper::Refusal;

// A refusal, with its part and its places.
pub(crate) fn refusal_number(refusal: Refusal) -> u64
    ensures { result ≡ refusal_number refusal }
{
    let number = refusal.number as u64;
    let part = refusal.part as u64;
    let place = refusal.place as u64;
    let second = refusal.second as u64;
    number + 256 * part + 65536 * (place % 65536) + 4294967296 * (second % 65536)
}

// A slot, or nothing.
pub(crate) fn found_number(found: Result<Option<usize>, u8>) -> u64
    ensures { result ≡ found_number found }
{
    match found {
        Ok(Some(i)) => i as u64,
        Ok(None) => NOTHING,
        Err(n) => refused(n),
    }
}

// Yes is 1, no is 0.
pub(crate) fn yes_no_number(answer: Result<bool, u8>) -> u64
    ensures { result ≡ yes_no_number answer }
{
    match answer {
        Ok(true) => 1,
        Ok(false) => 0,
        Err(n) => refused(n),
    }
}

// A count or an index: itself.
pub(crate) fn plain_number(number: Result<usize, u8>) -> u64
    ensures { result ≡ plain_number number }
{
    match number {
        Ok(k) => k as u64,
        Err(n) => refused(n),
    }
}

// A count that may be larger, written where it was asked for; refused, what was lent for it stays.
pub(crate) fn put_number(number: Result<usize, u8>, out: &mut u64) -> u8
    ensures value { result ≡ answer_refusal number }
    ensures out_after { out.new ≡ number_is out.old number }
{
    match number {
        Ok(k) => {
            *out = k as u64;
            0
        }
        Err(n) => n,
    }
}

// Minutes, written where they were asked for; refused, what was lent for them stays.
pub(crate) fn put_minutes(minutes: Result<u64, u8>, out: &mut u64) -> u8
    ensures value { result ≡ answer_refusal minutes }
    ensures out_after { out.new ≡ minutes_written out.old minutes }
{
    match minutes {
        Ok(m) => {
            *out = m;
            0
        }
        Err(n) => n,
    }
}
