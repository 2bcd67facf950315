// Descriptions of names: what the words in the name of a compiler's helper say, and the code that finds it.
#![tactic(auto)]

pub mod entry;
pub mod vocabulary;
pub mod words;

// What the words of a name say, in the order in which the description is written; a word that is missing says nothing.
#[derive(Clone, Copy)]
pub struct Sentence {
    pub sign: &'static [u8],
    pub kind: &'static [u8],
    pub verb: &'static [u8],
    pub memory: &'static [u8],
    pub into: &'static [u8],
}

// A text does not fit the buffer that was lent for it.
#[derive(Clone, Copy, Debug, PartialEq, Eq)]
pub struct NoRoom;
