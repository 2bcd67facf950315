// The lines of one position of the image.
ghost use Rattle.std.specs.Prelude.{◌/◌, ◌≤◌, length};
ghost use Rattle.image.specs.View.{stretches_in, view};
ghost use Rattle.listing.specs.position.PositionLines.{Finishes, ListsAt};

use crate::Found;
use crate::order::order;
use crate::position::Best;
use crate::position::noted::walk_noted;
use crate::position::placed::walk_placed;
use image::fixup::Rules;
use listing_rules::is_crowded;
use listing_rules::rows::LINE_WIDTH;
use tables::fill::Fill;

// Finishes a position once all its names were met: with more names of the best grade than the skip amount the position
// is left out; otherwise these are put in order behind the `from` lines before.
fn finish(library: &[u8], skip: Option<usize>, m: &mut [u64], from: usize, b: Best) -> Fill
    requires { from ≤ length m.old / 4 }
    ensures { Finishes library.now skip m.old from b m.new result }
{
    if is_crowded(skip, b.count) {
        return Fill {
            rows: from,
            over: false,
        };
    }
    if m.len() / LINE_WIDTH - from < b.count {
        return Fill {
            rows: from,
            over: true,
        };
    }
    order(library, m, from, b.count);
    Fill {
        rows: from + b.count,
        over: false,
    }
}

// Lists the names at the position `at`, behind the lines in `m` that `f` counts: those noted there, then the symbols
// placed there, of which only the best grade stays.
pub fn list_position(
    image: &[u8],
    s: &[u64],
    rules: Rules,
    found: &Found,
    skip: Option<usize>,
    at: usize,
    m: &mut [u64],
    f: Fill,
) -> Fill
    ensures { let d = found.now in ListsAt (view image.now (stretches_in s.now)) rules skip d.library.now
        d.segments.now d.n d.references.now d.placed.now d.positions.now d.noted.now d.goals.now at m.old f m.new result }
{
    let from = f.rows;
    if f.over {
        return f;
    }
    if m.len() / LINE_WIDTH < from {
        return f;
    }
    let heard = walk_noted(found.noted, found.goals, at, m, from);
    let best = walk_placed(image, s, rules, found, at, m, from, heard);
    finish(found.library, skip, m, from, best)
}
