// The lines of one target after another.
ghost use Rattle.listing.specs.past_end.Beyond.{ListsTarget, ListsSpan};

use crate::past_end::bucket::list_bucket;
use tables::by_name::{BUCKETS, head_at};
use tables::fill::Fill;

// Lists the names of the target t; a target whose bucket is empty is passed over at once.
fn list_target(
    noted: &[u64],
    goals: &[u32],
    t: u64,
    skip: Option<usize>,
    lines: &mut [u64],
    f: Fill,
) -> Fill
    ensures { ListsTarget noted.now goals.now t skip lines.old f lines.new result }
{
    if f.over {
        return f;
    }
    let head = head_at(goals, (t % BUCKETS) as usize);
    if head == 0 {
        return f;
    }
    list_bucket(noted, head, t, skip, lines, f)
}

// Lists the names of all targets from `first` to `last`.
pub fn list_span(
    noted: &[u64],
    goals: &[u32],
    first: u64,
    last: u64,
    skip: Option<usize>,
    lines: &mut [u64],
    before: Fill,
) -> Fill
    ensures { ListsSpan noted.now goals.now first last skip lines.old before lines.new result }
{
    let mut f = before;
    for t in first..last {
        f = list_target(noted, goals, t, skip, lines, f);
    }
    list_target(noted, goals, first.max(last), skip, lines, f)
}
