// Lists where a library's routines and tables stand on a board with switched banks, bank by bank: the command line, which is that of a list, is taken apart, both
// files read, the run made, and the lists printed.
#![tactic(auto)]

mod find;
mod memory;
mod print;

use crate::find::list_banks;
use command::arguments::read_request;
use command::message::ended;
use command::mistake::say_usage;
use command::settings::settings_with;
use std::process::ExitCode;

fn main(rt: HostRuntime) -> ExitCode {
    let asked = read_request(&rt);
    match asked.requested {
        Ok(request) => {
            let settings = settings_with(request.settings, asked.withheld);
            let written = list_banks(&rt, request.image, request.library, settings);
            ended(&rt, written)
        }
        Err(mistake) => {
            say_usage(&rt, mistake);
            ExitCode::SUCCESS
        }
    }
}
