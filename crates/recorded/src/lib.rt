// What is recorded of whole runs: the cases in their file, what a run came to as numbers and digests, whether that agrees, and the tally of runs that agree.
#![tactic(auto)]

pub mod answer;
pub mod cases;
pub mod compare;
pub mod digest;
pub mod header;
pub mod numbers;
pub mod show;
pub mod tally;
