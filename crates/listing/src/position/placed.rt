// The symbols placed at a position: the rows of its bucket, from the newest to the oldest.
ghost use Rattle.std.specs.Prelude.{◌+◌, ◌/◌, ◌<◌, ◌≤◌, length};
ghost use Rattle.image.specs.View.{stretches_in, view};
ghost use Rattle.listing.specs.grade.Grades.{row_grade};
ghost use Rattle.listing.specs.position.Bests.{Meets, placed_lines};
ghost use Rattle.listing.specs.position.RowsAt.{WalksPlaced};

use crate::Found;
use crate::grade::grade;
use crate::position::Best;
use crate::position::best_lines::take_in;
use image::fixup::Rules;
use listing_rules::Line;
use search::rows::placed_at;
use search_rules::{PLACED_WIDTH, Placed};
use tables::by_name::head_at;

// Takes in the line of a placed symbol with its grade, if the symbol stands at the position and is graded.
fn take_placed(
    image: &[u8],
    s: &[u64],
    rules: Rules,
    found: &Found,
    m: &mut [u64],
    from: usize,
    b: Best,
    at: usize,
    row: Placed,
) -> Best
    requires { from + b.count < 18446744073709551615 }
    ensures { let f = found.now in Meets from (placed_lines at (row_grade (view image.now (stretches_in s.now)) f.library.now rules
        f.segments.now f.references.now f.n f.placed.now f.positions.now f.noted.now f.goals.now row) row) m.old b m.new result }
{
    let name = row.name;
    if row.position != at {
        return b;
    }
    let grade = grade(image, s, rules, found, row);
    if grade == 0 {
        return b;
    }
    take_in(
        m,
        from,
        b,
        Line {
            address: at as u64,
            grade,
            name,
        },
    )
}

// Goes over all symbols placed at the position `at`, and puts the lines of the best grade behind the `from` lines in
// `m`. Lines of noted names, which `before` counts, give way to the first symbol that is graded.
// One function for this and `walk_noted` would take as closures how a row is read, its link and what is taken in of it,
// and say in its contract what these do: it would be longer than both loops.
pub fn walk_placed(
    image: &[u8],
    s: &[u64],
    rules: Rules,
    found: &Found,
    at: usize,
    m: &mut [u64],
    from: usize,
    before: Best,
) -> Best
    requires { (from ≤ length m.old / 4) × (before.count ≤ length found.now.noted.now / 6) }
    ensures { let f = found.now in WalksPlaced (view image.now (stretches_in s.now)) rules f.library.now
        f.segments.now f.n f.references.now f.placed.now f.positions.now f.noted.now f.goals.now at from m.old before m.new result }
{
    let mut b = before;
    let mut here = head_at(found.positions, at);
    if found.placed.len() / PLACED_WIDTH < here {
        return b;
    }
    while here != 0 {
        let row = placed_at(found.placed, here - 1);
        let next = row.link;
        b = take_placed(image, s, rules, found, m, from, b, at, row);
        if here <= next {
            return b;
        }
        here = next;
    }
    b
}
