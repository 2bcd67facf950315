// The lines of the list in lent memory, read and written by number.
ghost use Rattle.std.specs.Prelude.{◌≡◌};
ghost use Rattle.lent.specs.Rows.{put_row};
ghost use Rattle.listing_rules.specs.Listing.{line_width, line_cells};
ghost use Rattle.listing_rules.specs.LineLayout.{line_at};

use crate::Line;
use lent::part::Part;
use lent::rows;

// How many numbers the row of a line has.
pub const LINE_WIDTH: usize = 4;

// The line in row i, made of zeros where there is no such row; of the grade's number the low 8 bits count.
pub fn line_at(m: &[u64], i: usize) -> Line
    ensures { result ≡ line_at m.now i }
{
    let n = rows::numbers(m, LINE_WIDTH, i);
    Line {
        address: n[0],
        grade: (n[1] % 256) as u8,
        name: Part {
            at: n[2] as usize,
            len: n[3] as usize,
        },
    }
}

// Puts a line into row i; without such a row the memory stays as it was.
pub fn put_line(m: &mut [u64], i: usize, row: Line)
    ensures { m.new ≡ put_row line_width m.old i (line_cells row) }
{
    let cells = [
        row.address,
        row.grade as u64,
        row.name.at as u64,
        row.name.len as u64,
    ];
    rows::put(m, i, &cells);
}
