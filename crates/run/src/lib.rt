// The whole run, from an image and a library to the list: what the caller asks, and what the caller gets.
#![tactic(auto)]

use image::cover::Stretches;

// What the caller asks: the number of the rule set (0 as found, 1 as documented), the number of the edition in which the
// library is read (1 as document 01 reads it, 2 with sums and nothing left over), the depth to which references are checked
// (0 to 4), how many masks other than 0 make a match valid, the skip amount, and the stretches of the image that are withheld.
// Rule set, edition and depth are numbers, since a caller in C may give any, and refusals 1, 30 and 17 are about the number.
#[derive(Clone, Copy)]
pub struct Settings {
    pub rules: u64,
    pub edition: u64,
    pub depth: u64,
    pub minimum: usize,
    pub skip: Option<usize>,
    pub withheld: Stretches,
}

// How many rows each stage wrote, and how many pattern bytes. The answer of a run is these, or a refusal; the rows are in lent
// memory.
#[derive(Clone, Copy, Debug, Default, PartialEq, Eq)]
pub struct Counts {
    pub segments: usize,
    pub references: usize,
    pub symbols: usize,
    pub pattern: usize,
    pub placed: usize,
    pub noted: usize,
    pub lines: usize,
}
