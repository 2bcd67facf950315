// A line of HEX text: a colon, digits, and the line's ending.
ghost use Rattle.std.specs.Prelude.{◌≡◌, ◌+◌, ◌*◌, ◌≤◌, ◌<◌, length};
ghost use Rattle.intel_hex.specs.Record.{sum_of, ending_at, line_at};

use crate::digits::{byte_at, value};
use crate::record::END;

// A line that is a record: how many data bytes it has, the sum of all its bytes modulo 256, and where the next line begins.
#[derive(Clone, Copy, Debug, PartialEq, Eq)]
pub struct Line {
    pub size: usize,
    pub sum: u8,
    pub next: usize,
}

// The sum of n bytes from a place on, modulo 256, if all their characters are digits. The loop goes on past a character
// that is no digit, so that the compiler can take many characters at once.
fn sum_of(text: &[u8], at: usize, n: usize) -> Option<u8>
    requires { at + 2 * n ≤ length text.now }
    ensures { result ≡ sum_of text.now at n }
{
    let mut sum: u8 = 0;
    let mut others: u8 = 0;
    for i in 0..n {
        let high = value(text[at + 2 * i]);
        let low = value(text[at + 2 * i + 1]);
        others |= high / 16 | low / 16;
        sum = sum.wrapping_add(16 * (high % 16) + low % 16);
    }
    if others == 0 { Some(sum) } else { None }
}

// How many bytes end a line at a place: none at the text's end, one for LF, two for CR LF. Elsewhere the line goes on.
fn ending_at(text: &[u8], at: usize) -> Option<usize>
    requires { at ≤ length text.now }
    ensures { result ≡ ending_at text.now at }
{
    match &text[at..] {
        [] => Some(0),
        [b'\n', ..] => Some(1),
        [b'\r', b'\n', ..] => Some(2),
        _ => None,
    }
}

// The record line at a place.
pub fn line_at(text: &[u8], at: usize) -> Option<Line>
    requires { at < length text.now }
    ensures { result ≡ line_at text.now at }
{
    if text[at] != b':' {
        return None;
    }
    let left = text.len() - at;
    if left < 11 {
        return None;
    }
    let size = usize::from(byte_at(text, at + 1));
    if left < 11 + 2 * size {
        return None;
    }
    let end = at + 11 + 2 * size;
    let sum = sum_of(text, at + 1, 5 + size)?;
    let next = end + ending_at(text, end)?;
    if size != 0 && byte_at(text, at + 7) == END {
        return None;
    }
    Some(Line { size, sum, next })
}
