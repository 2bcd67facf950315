// The list in its printed form, in a lent buffer. The text is measured before it is written, so that a buffer that is
// too small stays as it was.
#![tactic(auto)]

ghost use Rattle.std.specs.Prelude.{◌≡◌, ◌≤◌, leb, length};
ghost use Rattle.describe.specs.Described.{Put};
ghost use Rattle.listing_rules.specs.Print.{heading, printed_line, printed};
ghost use Rattle.printing.specs.PrintedText.{fitted_text, stored_lines};

mod pieces;
mod sizes;

use describe::NoRoom;
use describe::entry::put;
use listing_rules::{Line, rows};

// The heading of the list.
const HEADING: &[u8] = b"Address | Name                 | Description\n";

// Prints the heading alone, and answers how many bytes were written.
pub fn print_heading(out: &mut [u8]) -> Result<usize, NoRoom>
    ensures { (result, out.new) ≡ fitted_text heading out.old }
{
    if out.len() < HEADING.len() {
        return Err(NoRoom);
    }
    Ok(put(out, 0, HEADING))
}

// Prints one line of the list, whose name is a part of the library, at the front of the buffer, and answers how many
// bytes were written.
pub fn print_line(library: &[u8], line: Line, out: &mut [u8]) -> Result<usize, NoRoom>
    ensures { (result, out.new) ≡ fitted_text (printed_line library.now line) out.old }
{
    if out.len() < sizes::line(library, line) {
        return Err(NoRoom);
    }
    Ok(pieces::put_line(out, 0, library, line))
}

// Whether the heading and the first n lines take at most `room` bytes. Each line takes some of it, so that the loop
// ends soon even if n is far too large.
fn fits(library: &[u8], lines: &[u64], n: usize, room: usize) -> bool
    ensures { result ≡ leb (length (printed library.now (stored_lines lines.now n))) room }
{
    if room < HEADING.len() {
        return false;
    }
    let mut left = room - HEADING.len();
    for i in 0..n {
        let size = sizes::line(library, rows::line_at(lines, i));
        if left < size {
            return false;
        }
        left -= size;
    }
    true
}

// Writes the heading and the first n lines into a buffer that has room for them, and answers where they end.
fn put_all(library: &[u8], lines: &[u64], n: usize, out: &mut [u8]) -> usize
    requires { length (printed library.now (stored_lines lines.now n)) ≤ length out.old }
    ensures { Put out.old 0 (printed library.now (stored_lines lines.now n)) out.new result }
{
    let mut at = put(out, 0, HEADING);
    for i in 0..n {
        at = pieces::put_line(out, at, library, rows::line_at(lines, i));
    }
    at
}

// Prints the heading and the lines that the first n rows of `lines` hold, and answers how many bytes were written.
pub fn print(library: &[u8], lines: &[u64], n: usize, out: &mut [u8]) -> Result<usize, NoRoom>
    ensures { (result, out.new) ≡ fitted_text (printed library.now (stored_lines lines.now n)) out.old }
{
    if !fits(library, lines, n, out.len()) {
        return Err(NoRoom);
    }
    Ok(put_all(library, lines, n, out))
}
