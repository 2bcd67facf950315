// The run on a board with switched banks, whose rules are those of `bank_rules`.
#![tactic(auto)]

pub mod board;
mod cut;
pub mod entry;
mod one_view;
mod view;
mod views;
