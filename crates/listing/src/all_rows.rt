// All lines for the rows that a search left.
ghost use Rattle.std.specs.Prelude.{◌≡◌, ◌++◌, ◌-◌, length, take};
ghost use Rattle.lent.specs.Rows.{zeros};
ghost use Rattle.image.specs.View.{stretches_in, view};
ghost use Rattle.listing.specs.Listed.{Leaves, ListsRows};

use crate::Found;
use crate::inside::list_inside;
use crate::past_end::list_beyond;
use image::fixup::Rules;
use listing_rules::rows::LINE_WIDTH;
use tables::fill::Fill;

// Sets the numbers behind the first `count` to zero.
fn clear_behind(m: &mut [u64], count: usize)
    ensures { m.new ≡ take count m.old ++ zeros (length m.old - count) }
{
    let end = m.len();
    if end < count {
        return;
    }
    m[count..end].fill(0);
}

// Clears the memory behind the lines, where lines may stand that were not listed in the end. If there are too many
// lines nothing is cleared here: `list` clears all lists then.
fn leave(m: &mut [u64], f: Fill)
    ensures { Leaves m.old f m.new }
{
    if f.over {
        return;
    }
    if m.len() / LINE_WIDTH < f.rows {
        return;
    }
    clear_behind(m, f.rows * LINE_WIDTH);
}

// Lists the names of the rows that a search left, first at the positions of the image, then past its end. Rows of
// placed symbols are found by the heads `positions`; `names` rows of noted names by the heads `goals`. The image with
// its stretches `s` and the first n segments with their references tell whether a symbol is borne out.
pub fn list_rows(
    image: &[u8],
    s: &[u64],
    rules: Rules,
    found: &Found,
    skip: Option<usize>,
    names: usize,
    lines: &mut [u64],
) -> Fill
    ensures { let d = found.now in ListsRows (view image.now (stretches_in s.now)) rules skip d.library.now
        d.segments.now d.n d.references.now d.placed.now d.positions.now d.noted.now d.goals.now names lines.old lines.new result }
{
    let none = Fill {
        rows: 0,
        over: false,
    };
    let inside = list_inside(image, s, rules, found, skip, lines, none);
    let all = list_beyond(
        found.noted,
        names,
        found.goals,
        image.len(),
        skip,
        lines,
        inside,
    );
    leave(lines, all);
    all
}
