// The collection: the segments of all modules are put into lent memory.
#![tactic(auto)]

pub mod absolute;
pub mod all_modules;
pub mod conclude;
pub mod entry;
pub mod kept;
pub mod one_module;
pub mod stored;
