// The targets at which to look for names past the end, each found by one pass over the rows.
ghost use Rattle.std.specs.Prelude.{◌≤◌};
ghost use Rattle.listing.specs.past_end.Beyond.{NonePast, NoneBefore};

use lent::rows::cell;
use search_rules::NOTED_WIDTH;

// With so many rows or more it takes less time to look at each target of a span than to search
// all rows for the next target each time.
const MANY: usize = 128;

// The highest target of n rows, 0 where there are no rows.
pub fn highest(noted: &[u64], n: usize) -> u64
    ensures { NonePast noted.now n result }
{
    let mut top: u64 = 0;
    for i in 0..n {
        top = top.max(cell(noted, NOTED_WIDTH, i, 0));
    }
    top
}

// The lowest target of n rows that is at or past a bound; `top` if no such target is below it.
pub fn lowest(noted: &[u64], n: usize, bound: u64, top: u64) -> u64
    ensures { NoneBefore noted.now n bound top result }
{
    let mut least = top;
    for i in 0..n {
        let target = cell(noted, NOTED_WIDTH, i, 0);
        if bound <= target {
            least = least.min(target);
        }
    }
    least
}

// The end of the span of targets that are tried one by one from `first` on. With few rows the span is `first`
// alone; with many it ends at the highest target that differs from `first` in the low 16 bits only, so that
// no bucket serves two targets of a span.
pub fn span_end(noted: &[u64], n: usize, first: u64) -> u64
    ensures { first ≤ result }
{
    if n < MANY {
        return first;
    }
    let most = first | 0xFFFF;
    let mut last = first;
    for i in 0..n {
        let target = cell(noted, NOTED_WIDTH, i, 0);
        if target <= most {
            last = last.max(target);
        }
    }
    last
}
