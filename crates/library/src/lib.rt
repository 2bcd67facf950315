// Where the modules of a library stand, and going over a module's definitions, contents and fixups.
#![tactic(auto)]

pub mod edition;
pub mod file;
pub mod items;
pub mod module;
pub mod repeat;

// The length of the longest library file that a run takes.
pub const LONGEST_LIBRARY: usize = 1048576;

// Where the definitions and the contents of a whole module start, and the place after the module.
#[derive(Clone, Copy, Debug, PartialEq, Eq)]
pub struct Places {
    pub definitions: usize,
    pub contents: usize,
    pub next: usize,
}

// Modules in a row: how many there are, and the place after them.
#[derive(Clone, Copy, Debug, PartialEq, Eq)]
pub struct Counted {
    pub count: usize,
    pub next: usize,
}

// What a file that was read holds: where its first module stands, and how many modules stand there one after another.
#[derive(Clone, Copy, Debug, PartialEq, Eq)]
pub struct Reading {
    pub first: usize,
    pub count: usize,
}
