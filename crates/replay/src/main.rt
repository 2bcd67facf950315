// Runs the whole of libfind on each case of the file that the first argument names, from an image and a library file to the list and its printed form, and
// holds what came of it against what is recorded (README.md).
#![tactic(auto)]

mod trial;

use crate::trial::run_back;
use recorded::cases::{open, room};
use recorded::compare::compare_all;

fn main(rt: HostRuntime) {
    let Some(mut cases) = open(&rt, 1) else {
        return;
    };
    let mut image = room::<65792>();
    // A library of 1,048,577 bytes is refused as too long.
    let mut library = room::<1048832>();
    compare_all(&rt, &mut cases, &mut image, &mut library, run_back);
}
