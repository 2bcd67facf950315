// Intel HEX: text into an image, and an image into text. Both are measured before a byte is written, so that the lent
// buffer stays as it was on every refusal.
#![tactic(auto)]

ghost use Rattle.std.specs.Prelude.{◌≡◌};
ghost use Rattle.intel_hex.specs.Outcome.{hex_number};

mod digits;
pub mod export;
pub mod import;
mod line;
mod memory;
mod record;

use std::fmt;

// Why there is no result; specs/Outcome.antt gives each refusal its number.
#[derive(Clone, Copy, Debug, PartialEq, Eq)]
pub enum HexRefusal {
    ImageTooLong,
    NoRoom,
    BadText,
    WrongSum,
    OtherType,
    PastEnd,
    GivenTwice,
    NoEndRecord,
}

// A refusal in words.
impl fmt::Display for HexRefusal {
    fn fmt<W: fmt::Write>(&self, f: &mut fmt::Formatter<W>) -> fmt::Result {
        f.write_str(match self {
            HexRefusal::ImageTooLong => "image too long (more than 65536 bytes)",
            HexRefusal::NoRoom => "the result does not fit its buffer",
            HexRefusal::BadText => {
                "bad text: a line is not a colon, as many digits as its length says \
                 and the line's ending, or is an end record with data"
            }
            HexRefusal::WrongSum => "wrong sum: a record's bytes do not sum to 0 modulo 256",
            HexRefusal::OtherType => "a record of another type than 00 and 01",
            HexRefusal::PastEnd => "data past FFFFh",
            HexRefusal::GivenTwice => "a byte is given twice",
            HexRefusal::NoEndRecord => "no end record",
        })
    }
}

// The number that the caller gets for a refusal.
impl From<HexRefusal> for u8 {
    ghost from_gives = { λ r n. n ≡ hex_number r };

    fn from(r: HexRefusal) -> u8 {
        match r {
            HexRefusal::ImageTooLong => 2,
            HexRefusal::NoRoom => 9,
            HexRefusal::BadText => 20,
            HexRefusal::WrongSum => 21,
            HexRefusal::OtherType => 22,
            HexRefusal::PastEnd => 23,
            HexRefusal::GivenTwice => 24,
            HexRefusal::NoEndRecord => 25,
        }
    }
}
