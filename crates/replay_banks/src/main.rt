// Runs the search of a board with switched banks on each case of the file that the first argument names, and holds what came of it against what is recorded
// (README.md).
#![tactic(auto)]

mod trial;

use crate::trial::run_back;
use recorded::cases::{open, room};
use recorded::compare::compare_all;

fn main(rt: HostRuntime) {
    let Some(mut cases) = open(&rt, 1) else {
        return;
    };
    // No case has a longer file: a common part and 17 banks, one too many.
    let mut file = room::<589824>();
    // A library of 1,048,577 bytes is refused as too long.
    let mut library = room::<1048832>();
    compare_all(&rt, &mut cases, &mut file, &mut library, run_back);
}
