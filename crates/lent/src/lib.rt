// What all stages share: parts of the library, refusals, and rows of numbers in lent memory.
#![tactic(auto)]

pub mod names;
pub mod part;
pub mod refusal;
pub mod rows;
