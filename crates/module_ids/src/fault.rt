// Refusals 10 to 13 of fixups and contents.
pub mod one;
