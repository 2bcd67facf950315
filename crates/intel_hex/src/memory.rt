// The memory that data records fill: a cell for each of the 65,536 addresses. 0 is an address that no record gave; a
// byte b that was given is 256 + b.
// A cell is a number: with an `Option<u8>`, importing 64 KiB in records of 16 bytes takes 24 % more instructions.
ghost use Rattle.std.specs.Prelude.{◌≡◌, ◌+◌, ◌*◌, ◌≤◌, length};
ghost use Rattle.std.proofs.lemmas.List.Edits.{sets};
ghost use Rattle.intel_hex.specs.Digits.{bytes_at};
ghost use Rattle.intel_hex.specs.Cells.{no_cells, byte_in, taken, image_in};

use crate::digits::byte_at;

// Cells of which none was given. They are made here, so that the checker never writes the zeros out.
pub fn nothing() -> [u16; 65536]
    ensures { result ≡ no_cells }
{
    [0u16; 65536]
}

// Notes the bytes of a data record, whose digits begin at a place of the text, and answers whether none of them was
// given before. The loop goes on past one that was, so that the compiler can take many bytes at once.
pub fn take(text: &[u8], at: usize, address: usize, size: usize, cells: &mut [u16]) -> bool
    requires { (at + 2 * size ≤ length text.now) × (address + size ≤ length cells.old) }
    ensures { (result, cells.new) ≡ taken 0 cells.old address (bytes_at text.now at size) }
{
    let mut seen = 0;
    for i in 0..size {
        seen |= cells[address + i];
        cells[address + i] = 256 + u16::from(byte_at(text, at + 2 * i));
    }
    seen == 0
}

// The byte of a cell: FFh where none was given.
fn byte(cell: u16) -> u8
    ensures { result ≡ byte_in cell }
{
    if cell == 0 { 255 } else { (cell % 256) as u8 }
}

// Writes the image that ends before `end` to the front of a buffer.
pub fn fill(cells: &[u16], end: usize, out: &mut [u8])
    requires { (end ≤ length cells.now) × (end ≤ length out.old) }
    ensures { out.new ≡ sets out.old 0 (image_in cells.now end) }
{
    for i in 0..end {
        out[i] = byte(cells[i]);
    }
}
