// Lists where a library's routines and tables stand in an image: the command line is taken apart, both files read, the run made, and its list printed.
#![tactic(auto)]

mod find;
mod memory;

use crate::find::list;
use command::arguments::read_request;
use command::message::ended;
use command::mistake::say_usage;
use command::settings::settings_with;
use std::process::ExitCode;

fn main(rt: HostRuntime) -> ExitCode {
    let asked = read_request(&rt);
    match asked.requested {
        Ok(request) => {
            let settings = settings_with(request.settings, asked.withheld);
            let written = list(&rt, request.image, request.library, settings);
            ended(&rt, written)
        }
        Err(mistake) => {
            say_usage(&rt, mistake);
            ExitCode::SUCCESS
        }
    }
}
