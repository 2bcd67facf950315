// Walks a routine of an image from an address on: the command line is taken apart, the file read, and what the walk shows
// printed, an instruction a line.
#![tactic(auto)]

mod address;
mod forms;
mod print;
mod show;
mod usage;

use crate::address::read_address;
use crate::show::walk;
use crate::usage::{only_withholds, say_wrong};
use command::arguments::read_request;
use command::message::ended;
use command::mistake::say_usage;
use std::process::ExitCode;

// The command line is one of an image and a second word; that is the address here.
fn main(rt: HostRuntime) -> ExitCode {
    if !only_withholds(&rt) {
        return ExitCode::SUCCESS;
    }
    let asked = read_request(&rt);
    match asked.requested {
        Ok(request) => match read_address(&rt, request.library) {
            Ok(start) => ended(&rt, walk(&rt, request.image, start, asked.withheld)),
            Err(mistake) => {
                say_usage(&rt, mistake);
                ExitCode::SUCCESS
            }
        },
        Err(mistake) => {
            say_wrong(&rt, mistake);
            ExitCode::SUCCESS
        }
    }
}
