// One record, or why there is none: the tests of a line, in the order of their numbers.
ghost use Rattle.std.specs.Prelude.{◌≡◌};
ghost use Rattle.intel_hex.specs.Record.{record_at};

use crate::HexRefusal;
use crate::digits::byte_at;
use crate::line::{Line, line_at};

// The types of the records that a text may have.
pub const DATA: u8 = 0;

pub const END: u8 = 1;

// A data record: its first address, the number of its bytes, and the place of the next line.
#[derive(Clone, Copy, Debug, PartialEq, Eq)]
pub struct DataRecord {
    pub address: usize,
    pub size: usize,
    pub next: usize,
}

// The data record at a place of the text; none where the end record stands there, or else a reason to refuse the text.
pub fn record_at(text: &[u8], at: usize) -> Result<Option<DataRecord>, HexRefusal>
    ensures { result ≡ record_at text.now at }
{
    if text.len() <= at {
        return Err(HexRefusal::NoEndRecord);
    }
    let Some(Line { size, sum, next }) = line_at(text, at) else {
        return Err(HexRefusal::BadText);
    };
    if sum != 0 {
        return Err(HexRefusal::WrongSum);
    }
    match byte_at(text, at + 7) {
        DATA => {}
        END => return Ok(None),
        _ => return Err(HexRefusal::OtherType),
    }
    let address = 256 * usize::from(byte_at(text, at + 3)) + usize::from(byte_at(text, at + 5));
    if 65536 < address + size {
        return Err(HexRefusal::PastEnd);
    }
    Ok(Some(DataRecord {
        address,
        size,
        next,
    }))
}
