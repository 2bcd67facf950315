// The names noted at a position: the rows of its bucket, from the newest to the oldest.
ghost use Rattle.std.specs.Prelude.{◌+◌, ◌/◌, ◌<◌, ◌≤◌, length};
ghost use Rattle.listing.specs.position.Bests.{Meets, noted_lines};
ghost use Rattle.listing.specs.position.RowsAt.{WalksNoted};

use crate::position::Best;
use crate::position::best_lines::take_in;
use listing_rules::Line;
use search::rows::noted_at;
use search_rules::{NOTED_WIDTH, Noted};
use tables::by_name::head_at;

// Takes in the line of a noted name, of grade 0, if the name is valid and its target is the position.
fn take_noted(m: &mut [u64], from: usize, b: Best, at: usize, row: Noted) -> Best
    requires { from + b.count < 18446744073709551615 }
    ensures { Meets from (noted_lines at row) m.old b m.new result }
{
    let name = row.name;
    if row.target != at as u64 {
        return b;
    }
    if !row.valid {
        return b;
    }
    take_in(
        m,
        from,
        b,
        Line {
            address: at as u64,
            grade: 0,
            name,
        },
    )
}

// Goes over all names noted at the position `at`, and puts the lines of the valid ones behind the `from` lines in `m`.
// `goals` has the heads of the buckets of noted names.
pub fn walk_noted(noted: &[u64], goals: &[u32], at: usize, m: &mut [u64], from: usize) -> Best
    requires { from ≤ length m.old / 4 }
    ensures { WalksNoted noted.now goals.now at from m.old m.new result }
{
    let mut b = Best { count: 0, grade: 0 };
    let mut here = head_at(goals, at);
    if noted.len() / NOTED_WIDTH < here {
        return b;
    }
    while here != 0 {
        let row = noted_at(noted, here - 1);
        let next = row.link;
        b = take_noted(m, from, b, at, row);
        if here <= next {
            return b;
        }
        here = next;
    }
    b
}
