// The lines of the positions of the image, ascending.
ghost use Rattle.image.specs.View.{stretches_in, view};
ghost use Rattle.listing.specs.Inside.{ListsInside};

use crate::Found;
use crate::bare::skip_bare;
use crate::position::lines::list_position;
use image::fixup::Rules;
use tables::fill::Fill;

// Lists the names at all positions of the image, behind the lines in `m` that `before` counts. Positions without rows
// are passed over.
pub fn list_inside(
    image: &[u8],
    s: &[u64],
    rules: Rules,
    found: &Found,
    skip: Option<usize>,
    m: &mut [u64],
    before: Fill,
) -> Fill
    ensures { let d = found.now in ListsInside (view image.now (stretches_in s.now)) rules skip d.library.now
        d.segments.now d.n d.references.now d.placed.now d.positions.now d.noted.now d.goals.now m.old before m.new result }
{
    let end = image.len();
    let mut f = before;
    let mut at = skip_bare(found.positions, found.goals, 0, end);
    while at < end {
        f = list_position(image, s, rules, found, skip, at, m, f);
        at = skip_bare(found.positions, found.goals, at + 1, end);
    }
    f
}
