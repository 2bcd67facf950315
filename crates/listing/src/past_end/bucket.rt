// The names of one target: the rows of its bucket are gone over by their links, from the newest to the oldest.
ghost use Rattle.std.specs.Prelude.{◌≡◌};
ghost use Rattle.listing.specs.past_end.Beyond.{noting_of, sought, Onward, Counts, WritesOne, WritesAll, ListsBucket};

use listing_rules::rows::{LINE_WIDTH, put_line};
use listing_rules::{Line, is_crowded};
use search::rows::noted_at;
use search_rules::Noted;
use tables::fill::Fill;

// The link to follow after `here`: a link that does not lead to an earlier row leads
// nowhere, so that the way ends on any numbers.
fn onward(here: usize, link: usize) -> usize
    ensures { Onward here link result }
{
    if link < here { link } else { 0 }
}

// Whether a row has this target, and is valid, or all rows are sought.
fn is_sought(row: Noted, t: u64, all: bool) -> bool
    ensures { result ≡ sought t all (noting_of row) }
{
    row.target == t && (all || row.valid)
}

// How many rows of the target t there are, all or the valid ones.
fn count(noted: &[u64], head: usize, t: u64, all: bool) -> usize
    ensures { Counts noted.now head t all result }
{
    let mut n = 0;
    let mut here = head;
    while here != 0 {
        let row = noted_at(noted, here - 1);
        if is_sought(row, t, all) {
            n += 1;
        }
        here = onward(here, row.link);
    }
    n
}

// Writes the line of a row in front of line k, if the row is valid and has this target; answers where the first line is now.
fn write_name(row: Noted, t: u64, lines: &mut [u64], k: usize) -> usize
    ensures { WritesOne row t lines.old k lines.new result }
{
    if k == 0 {
        return 0;
    }
    if is_sought(row, t, false) {
        let name = row.name;
        put_line(
            lines,
            k - 1,
            Line {
                address: row.target,
                grade: 0,
                name,
            },
        );
        return k - 1;
    }
    k
}

// Writes the lines of a target's valid names in front of line `end`. The newest row is met first, so
// that lines are written from the back.
fn write_names(noted: &[u64], head: usize, t: u64, end: usize, lines: &mut [u64])
    ensures { WritesAll noted.now head t end lines.old lines.new }
{
    let mut k = end;
    let mut here = head;
    while here != 0 {
        let row = noted_at(noted, here - 1);
        k = write_name(row, t, lines, k);
        here = onward(here, row.link);
    }
}

// Lists the valid names of the target t behind the lines that `f` counts; `head` is the head of the target's bucket.
// The skip test counts all names of the target, valid or not.
pub fn list_bucket(
    noted: &[u64],
    head: usize,
    t: u64,
    skip: Option<usize>,
    lines: &mut [u64],
    f: Fill,
) -> Fill
    ensures { ListsBucket noted.now head t skip lines.old f lines.new result }
{
    if is_crowded(skip, count(noted, head, t, true)) {
        return f;
    }
    let valid = count(noted, head, t, false);
    let room = lines.len() / LINE_WIDTH;
    if room < f.rows {
        return Fill {
            rows: f.rows,
            over: true,
        };
    }
    if room - f.rows < valid {
        return Fill {
            rows: f.rows,
            over: true,
        };
    }
    let end = f.rows + valid;
    write_names(noted, head, t, end, lines);
    Fill {
        rows: end,
        over: false,
    }
}
