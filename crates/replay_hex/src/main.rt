// Imports or exports what each case of the file that the first argument names holds, and holds what came of it against
// what is recorded (README.md). What an export wrote is imported again, and must be the image.
#![tactic(auto)]

mod compare;
mod trial;

fn main(rt: HostRuntime) {
    let Some(mut cases) = recorded::cases::open(&rt, 1) else {
        return;
    };
    let mut tally = recorded::tally::Tally::new();
    compare::compare_all(&rt, &mut cases, &mut tally);
}
