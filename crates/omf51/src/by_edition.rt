// What edition 2 adds to the reading of a record: that its bytes sum to 0, and that its body is used up.
ghost use Rattle.std.specs.Prelude.{◌≡◌, ◌%◌, ◌≤◌, eqb, length};
ghost use Rattle.lent.specs.Lists.{total};
ghost use Rattle.omf51.specs.Record.{edition_of, record_sum, expected_by, leaves_over};
ghost use Rattle.omf51.specs.Expected.{allows as allowed_types, frame_read};

use crate::read_record::record_at;
use crate::types::Allowed;
use crate::{Edition, Frame};
use lent::refusal::Refusal;

// The edition of a number: 2, or else 1. A `From` would say that every number is an edition.
pub fn edition_of(number: u64) -> Edition
    ensures { result ≡ edition_of number }
{
    if number == 2 {
        Edition::Two
    } else {
        Edition::One
    }
}

// The sum of some bytes modulo 256. The sum is taken in a byte, so that the compiler can add many bytes at once.
fn sum_of(bytes: &[u8]) -> u8
    ensures { result ≡ total (λ byte. byte) bytes.now % 256 }
{
    let mut sum: u8 = 0;
    for byte in bytes {
        sum = sum.wrapping_add(*byte);
    }
    sum
}

// Whether the bytes from `at` up to `next` sum to 0 modulo 256.
#[tactic(auto, unfolding(crate::specs::Record::record_sum))]
fn sums_to_zero(library: &[u8], at: usize, next: usize) -> bool
    requires { (at ≤ next) × (next ≤ length library.now) }
    ensures { result ≡ eqb (record_sum library.now at next) 0 }
{
    sum_of(&library[at..next]) == 0
}

// The record at a place in an edition, if its type is allowed there. Edition 2 refuses a record whose bytes, its checksum
// among them, do not sum to 0 (14).
pub fn record_by(
    library: &[u8],
    edition: Edition,
    what: Allowed,
    at: usize,
) -> Result<Option<Frame>, Refusal>
    ensures { frame_read result ≡ expected_by edition library.now (allowed_types what) at }
{
    let Some(f) = record_at(library, what, at)? else {
        return Ok(None);
    };
    match edition {
        Edition::One => Ok(Some(f)),
        Edition::Two => {
            if sums_to_zero(library, at, f.end + 1) {
                Ok(Some(f))
            } else {
                Err(Refusal::WrongSum)
            }
        }
    }
}

// Whether bytes are left over behind what was read up to `left`, which should have gone up to `end`: edition 1 passes them over.
pub fn leaves_over(edition: Edition, left: usize, end: usize) -> bool
    ensures { result ≡ leaves_over edition left end }
{
    match edition {
        Edition::One => false,
        Edition::Two => left < end,
    }
}
