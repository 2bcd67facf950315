// Walks each case of the file that the first argument names, and holds what came of it against what is recorded; then each
// instruction of the file that the second argument names against what a disassembler tells of it (README.md).
#![tactic(auto)]

mod compare;
mod told;
mod trial;

use recorded::cases::open;

fn main(rt: HostRuntime) {
    let Some(mut cases) = open(&rt, 1) else {
        return;
    };
    let mut tally = recorded::tally::Tally::new();
    compare::compare_all(&rt, &mut cases, &mut tally);
    let Some(mut instructions) = open(&rt, 2) else {
        return;
    };
    told::compare_all(&rt, &mut instructions);
}
