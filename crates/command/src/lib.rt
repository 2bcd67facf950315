// What the programs share: the words of the command line and the settings that they ask for, files, memory, what is said where there is no list, and the
// list on standard output.
#![tactic(auto)]

pub mod arguments;
pub mod file;
pub mod library_room;
pub mod memory;
pub mod message;
pub mod mistake;
pub mod number;
pub mod options;
pub mod output;
pub mod refusal_words;
pub mod settings;
pub mod stretch;
pub mod values;
pub mod words;
