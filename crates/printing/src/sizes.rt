// How many bytes the pieces of a printed line take.
ghost use Rattle.std.specs.Prelude.{◌≡◌, ◌+◌, ◌-◌, ◌/◌, length};
ghost use Rattle.describe.specs.Describe.{describe as described};
ghost use Rattle.listing_rules.specs.Print.{more_digits, remark as remark_of, printed_line};
ghost use Rattle.printing.specs.Pieces.{address_column, name_column};

use describe::entry::describe;
use lent::names;
use listing_rules::Line;

// No description has more bytes than this.
pub const LONGEST: usize = 88;

// How many blanks fill a text of a length up to a width; a longer text is not cut.
pub fn blanks(width: usize, len: usize) -> usize
    ensures { result ≡ width - len }
{
    width.saturating_sub(len)
}

// How many hexadecimal digits an address is printed with: four, or as many more as it needs.
pub fn digits(address: u64) -> usize
    ensures { result ≡ 4 + more_digits 12 (address / 65536) }
{
    let mut rest = address / 65536;
    for n in 4..16 {
        if rest == 0 {
            return n;
        }
        rest /= 16;
    }
    16
}

// How many bytes the column of the address takes.
fn address(a: u64) -> usize
    ensures { result ≡ length (address_column a) }
{
    let n = digits(a) + 2;
    n + blanks(7, n)
}

// How many bytes the column of the name takes.
fn name(grade: u8, bytes: &[u8]) -> usize
    ensures { result ≡ length (name_column grade bytes.now) }
{
    let n = bytes.len() + 2;
    n + blanks(22, n)
}

// How many bytes the description takes, with the blank before it; 0 if the name has none.
fn remark(bytes: &[u8]) -> usize
    ensures { result ≡ length (remark_of (described bytes.now)) }
{
    let mut words = [0u8; LONGEST];
    match describe(bytes, &mut words).unwrap() {
        Some(n) => n + 1,
        None => 0,
    }
}

// How many bytes a line takes, with its three blanks between columns and its line feed.
pub fn line(library: &[u8], l: Line) -> usize
    ensures { result ≡ length (printed_line library.now l) }
{
    let bytes = names::name(library, l.name);
    address(l.address) + name(l.grade, bytes) + remark(bytes) + 4
}
