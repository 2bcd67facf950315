// The lines of the names noted at or past the image's end: targets ascending, the names of a target as they were first noted.
ghost use Rattle.listing.specs.past_end.Beyond.{ListsBeyond};

mod bounds;
mod bucket;
mod span;

use crate::past_end::bounds::{highest, lowest, span_end};
use crate::past_end::span::list_span;
use tables::fill::Fill;

// Lists the names noted at targets from `end`, the image's length, on, behind the lines that `before` counts. `noted`
// has n rows, and `goals` the heads of their buckets.
pub fn list_beyond(
    noted: &[u64],
    n: usize,
    goals: &[u32],
    end: usize,
    skip: Option<usize>,
    lines: &mut [u64],
    before: Fill,
) -> Fill
    ensures { ListsBeyond noted.now n goals.now end skip lines.old before lines.new result }
{
    let top = highest(noted, n);
    let mut bound = end as u64;
    let mut f = before;
    while bound <= top {
        if f.over {
            return f;
        }
        let first = lowest(noted, n, bound, top);
        let last = span_end(noted, n, first);
        f = list_span(noted, goals, first, last, skip, lines, f);
        if top <= last {
            return f;
        }
        bound = last + 1;
    }
    f
}
