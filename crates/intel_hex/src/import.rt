// Import: HEX text becomes an image.
ghost use Rattle.std.specs.Prelude.{◌≡◌, ◌+◌, ◌≤◌, length};
ghost use Rattle.intel_hex.specs.Outcome.{stored};
ghost use Rattle.intel_hex.specs.Import.{end_after, imported};
ghost use Rattle.intel_hex.specs.Cells.{Noted};

use crate::record::record_at;
use crate::{HexRefusal, memory};

// Where the image ends after a data record: behind the highest byte that was given. A record with no bytes moves nothing.
fn end_after(end: usize, address: usize, size: usize) -> usize
    requires { address + size ≤ 65536 }
    ensures { result ≡ end_after end address size }
{
    if size == 0 {
        end
    } else {
        end.max(address + size)
    }
}

// Reads all records up to the end record into the cells, and answers where the image ends.
fn read(text: &[u8], cells: &mut [u16]) -> Result<usize, HexRefusal>
    requires { length cells.old ≡ 65536 }
    ensures { Noted text.now cells.old cells.new result }
{
    let mut at = 0;
    let mut end = 0;
    while let Some(data) = record_at(text, at)? {
        if !memory::take(text, at + 9, data.address, data.size, cells) {
            return Err(HexRefusal::GivenTwice);
        }
        end = end_after(end, data.address, data.size);
        at = data.next;
    }
    Ok(end)
}

// Writes the image of a HEX text to the front of a lent buffer, and answers how many bytes it has.
pub fn import_text(text: &[u8], out: &mut [u8]) -> Result<usize, HexRefusal>
    ensures { (result, out.new) ≡ stored (imported text.now) out.old }
{
    let mut cells = memory::nothing();
    let end = read(text, &mut cells)?;
    if out.len() < end {
        return Err(HexRefusal::NoRoom);
    }
    memory::fill(&cells, end, out);
    Ok(end)
}
