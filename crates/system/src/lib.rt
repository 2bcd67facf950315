// What programs have of the system: the words of the command line, files that fill a room, and standard error.
#![tactic(auto)]

pub mod arguments;
pub mod files;
pub mod standard_error;
