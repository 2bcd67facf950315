// The rows of the search in lent memory, read by number: placed symbols and noted names. Any numbers make a row.
ghost use Rattle.std.specs.Prelude.{◌≡◌};
ghost use Rattle.search_rules.specs.SearchLayouts.{placed_at, noted_at};

use lent::part::Part;
use lent::rows;
use search_rules::{NOTED_WIDTH, Noted, PLACED_WIDTH, Placed};
use segments::SegmentNumber;

// The placed symbol in row i, made of zeros where there is no such row.
pub fn placed_at(m: &[u64], i: usize) -> Placed
    ensures { result ≡ placed_at m.now i }
{
    let n = rows::numbers(m, PLACED_WIDTH, i);
    Placed {
        position: n[0] as usize,
        name: Part {
            at: n[1] as usize,
            len: n[2] as usize,
        },
        valid: n[3] == 1,
        segment: SegmentNumber(n[4] as usize),
        base: n[5] as usize,
        link: n[6] as usize,
        alike: n[7] as usize,
    }
}

// The noted name in row i, made of zeros where there is no such row.
pub fn noted_at(m: &[u64], i: usize) -> Noted
    ensures { result ≡ noted_at m.now i }
{
    let n = rows::numbers(m, NOTED_WIDTH, i);
    Noted {
        target: n[0],
        name: Part {
            at: n[1] as usize,
            len: n[2] as usize,
        },
        valid: n[3] == 1,
        link: n[4] as usize,
        alike: n[5] as usize,
    }
}
