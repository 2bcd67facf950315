// What the exported functions share: plain numbers, as C callers have them, in place of settings, answers and counts.
#![tactic(auto)]

pub mod numbers;
