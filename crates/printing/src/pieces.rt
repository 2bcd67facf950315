// The pieces of a printed line, put one after another into a buffer that has room for them. Each
// function answers where its piece ends.
ghost use Rattle.std.specs.Prelude.{◌≡◌, ◌+◌, ◌≤◌, ◌<◌, length, replicate};
ghost use Rattle.lent.specs.Lists.{one};
ghost use Rattle.describe.specs.Describe.{describe as described};
ghost use Rattle.describe.specs.Described.{Put};
ghost use Rattle.listing_rules.specs.Print.{digit as digit_of, digits, remark, printed_line};
ghost use Rattle.printing.specs.Pieces.{address_column, name_column, opening as opening_of, closing as closing_of};

use crate::sizes;
use describe::entry::{describe, put};
use lent::names;
use listing_rules::Line;

// Puts one byte at a place.
fn put_byte(out: &mut [u8], at: usize, byte: u8) -> usize
    requires { at < length out.old }
    ensures { Put out.old at (one byte) out.new result }
{
    out[at] = byte;
    at + 1
}

// Puts n blanks at a place.
fn put_blanks(out: &mut [u8], at: usize, n: usize) -> usize
    requires { at + n ≤ length out.old }
    ensures { Put out.old at (replicate n 32) out.new result }
{
    let end = at + n;
    out[at..end].fill(b' ');
    end
}

// A hexadecimal digit; letters are in lower case.
fn digit(n: u8) -> u8
    requires { n < 16 }
    ensures { result ≡ digit_of n }
{
    if n < 10 { b'0' + n } else { b'a' + (n - 10) }
}

// Puts the last n hexadecimal digits of a number, working from the last to the first.
fn put_digits(out: &mut [u8], at: usize, n: usize, number: u64) -> usize
    requires { at + n ≤ length out.old }
    ensures { Put out.old at (digits n number) out.new result }
{
    let mut rest = number;
    for j in (0..n).rev() {
        out[at + j] = digit((rest % 16) as u8);
        rest /= 16;
    }
    at + n
}

// Puts the column of the address: 0x, four or more digits, and blanks up to 7 bytes.
fn put_address(out: &mut [u8], at: usize, address: u64) -> usize
    requires { at + length (address_column address) ≤ length out.old }
    ensures { Put out.old at (address_column address) out.new result }
{
    let n = sizes::digits(address);
    let from = put(out, at, b"0x");
    let end = put_digits(out, from, n, address);
    put_blanks(out, end, sizes::blanks(7, n + 2))
}

// The sign before a name: ( for a name that is only noted (grade 0), [ for a symbol that is
// not borne out (grade 1), else a blank.
fn opening(grade: u8) -> u8
    ensures { result ≡ opening_of grade }
{
    match grade {
        0 => b'(',
        1 => b'[',
        _ => b' ',
    }
}

// The sign behind a name, as that before it.
fn closing(grade: u8) -> u8
    ensures { result ≡ closing_of grade }
{
    match grade {
        0 => b')',
        1 => b']',
        _ => b' ',
    }
}

// Puts the column of the name: the name between its two signs, and blanks up to 22 bytes.
fn put_name(out: &mut [u8], at: usize, grade: u8, name: &[u8]) -> usize
    requires { at + length (name_column grade name.now) ≤ length out.old }
    ensures { Put out.old at (name_column grade name.now) out.new result }
{
    let from = put_byte(out, at, opening(grade));
    let behind = put(out, from, name);
    let end = put_byte(out, behind, closing(grade));
    put_blanks(out, end, sizes::blanks(22, name.len() + 2))
}

// Puts a blank and the description of the name, if it has one.
fn put_remark(out: &mut [u8], at: usize, name: &[u8]) -> usize
    requires { at + length (remark (described name.now)) ≤ length out.old }
    ensures { Put out.old at (remark (described name.now)) out.new result }
{
    let mut words = [0u8; sizes::LONGEST];
    let Some(n) = describe(name, &mut words).unwrap() else {
        return at;
    };
    let from = put_byte(out, at, b' ');
    put(out, from, &words[..n])
}

// Puts a whole line: address, two blanks, name, a blank, description, line feed.
pub fn put_line(out: &mut [u8], at: usize, library: &[u8], line: Line) -> usize
    requires { at + length (printed_line library.now line) ≤ length out.old }
    ensures { Put out.old at (printed_line library.now line) out.new result }
{
    let name = names::name(library, line.name);
    let a = put_address(out, at, line.address);
    let b = put_blanks(out, a, 2);
    let c = put_name(out, b, line.grade, name);
    let d = put_blanks(out, c, 1);
    let e = put_remark(out, d, name);
    put_byte(out, e, b'\n')
}
