// Export: an image becomes HEX text, in records of 16 bytes.
ghost use Rattle.std.specs.Prelude.{◌≡◌, ◌+◌, ◌*◌, ◌%◌, ◌≤◌, ◌<◌, length};
ghost use Rattle.std.proofs.lemmas.List.Edits.{sets};
ghost use Rattle.intel_hex.specs.Digits.{digit as digit_of, two_digits, all_digits, sum};
ghost use Rattle.intel_hex.specs.Outcome.{stored};
ghost use Rattle.intel_hex.specs.Export.{record_line, text_of, text_length, exported};

use crate::HexRefusal;
use crate::record::{DATA, END};

// A hexadecimal digit; letters are in upper case.
#[tactic(auto, unfolding(crate::specs::Digits::digit))]
fn digit(n: u8) -> u8
    requires { n < 16 }
    ensures { result ≡ digit_of n }
{
    if n < 10 { b'0' + n } else { b'A' + (n - 10) }
}

// Puts the two digits of a byte at a place.
fn put_byte(out: &mut [u8], at: usize, b: u8)
    requires { at + 1 < length out.old }
    ensures { out.new ≡ sets out.old at (two_digits b) }
{
    out[at] = digit(b / 16);
    out[at + 1] = digit(b % 16);
}

// Puts the digits of some bytes at a place, and answers the sum of these bytes modulo 256.
fn put_bytes(out: &mut [u8], at: usize, bytes: &[u8]) -> u8
    requires { at + 2 * length bytes.now ≤ length out.old }
    ensures { (result ≡ sum bytes.now % 256) × (out.new ≡ sets out.old at (all_digits bytes.now)) }
{
    let mut total: u8 = 0;
    let mut to = at;
    for &byte in bytes {
        put_byte(out, to, byte);
        total = total.wrapping_add(byte);
        to += 2;
    }
    total
}

// Puts the line of a record at a place. Its check byte makes the sum of all its bytes a multiple of 256.
fn put_record(out: &mut [u8], at: usize, kind: u8, address: usize, bytes: &[u8])
    requires { (at + 12 + 2 * length bytes.now ≤ length out.old) × (length bytes.now ≤ 255) × (address < 65536) }
    ensures { out.new ≡ sets out.old at (record_line kind address bytes.now) }
{
    let size = bytes.len();
    let head = [
        size as u8,
        (address / 256) as u8,
        (address % 256) as u8,
        kind,
    ];
    out[at] = b':';
    let first = put_bytes(out, at + 1, &head);
    let second = put_bytes(out, at + 9, bytes);
    let check = first.wrapping_add(second).wrapping_neg();
    put_byte(out, at + 9 + 2 * size, check);
    out[at + 11 + 2 * size] = b'\n';
}

// Puts all records of an image at the front of a buffer that has room for them.
fn put_all(image: &[u8], out: &mut [u8])
    requires { (text_length (length image.now) ≤ length out.old) × (length image.now ≤ 65536) }
    ensures { out.new ≡ sets out.old 0 (text_of image.now) }
{
    let mut at = 0;
    for (i, part) in image.chunks(16).enumerate() {
        put_record(out, at, DATA, 16 * i, part);
        at += 12 + 2 * part.len();
    }
    put_record(out, at, END, 0, &[]);
}

// Writes the HEX text of an image to the front of a lent buffer, and answers how many bytes it has.
pub fn export_image(image: &[u8], out: &mut [u8]) -> Result<usize, HexRefusal>
    ensures { (result, out.new) ≡ stored (exported image.now) out.old }
{
    let n = image.len();
    if 65536 < n {
        return Err(HexRefusal::ImageTooLong);
    }
    let size = 12 * ((n + 15) / 16) + 2 * n + 12;
    if out.len() < size {
        return Err(HexRefusal::NoRoom);
    }
    put_all(image, out);
    Ok(size)
}
