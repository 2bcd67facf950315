// `hex IMAGE` writes the HEX text of an image to standard output, and `unhex TEXT` the image of a HEX text. The script
// sillmarble, in the repository's root, names the job and sees that one file is named.
#![tactic(auto)]

mod convert;
mod words;

use command::message::{ended, say};
use lent::names::same;
use std::process::ExitCode;
use system::arguments;

fn main(rt: HostRuntime) -> ExitCode {
    if arguments::count(&rt) != 3 {
        say(&rt, b"usage: one file is to be named (--help tells all)\n");
        return ExitCode::SUCCESS;
    }
    let mut room = command::words::room();
    let n = command::words::read_word(&rt, 1, &mut room);
    if same(&room[..n], b"hex") {
        return ended(&rt, convert::hex(&rt));
    }
    if same(&room[..n], b"unhex") {
        return ended(&rt, convert::unhex(&rt));
    }
    say(&rt, b"usage: the job is hex or unhex (--help tells all)\n");
    ExitCode::SUCCESS
}
