// The entry point of the whole run: an image and a library in, the list and its counts out, or a refusal.
#![tactic(auto)]

pub mod begin;
pub mod collected;
pub mod entry;
