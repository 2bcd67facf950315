// What the ids of a module lead to: a table with a row for each of the 65,536 ids, filled for a module and cleared after it.
#![tactic(auto)]

use lent::part::Part;

pub mod fault;
pub mod reference;
pub mod row;
pub mod scan;
pub mod table;

// What the first definition of a sort (segment, external) says for an id: there is none, it is not code, or it is code.
#[derive(Clone, Copy, Debug, PartialEq, Eq)]
pub enum Mark {
    Missing,
    Other,
    Code,
}

// A kept segment: its place among the kept segments of its module, and its size.
#[derive(Clone, Copy, Debug, PartialEq, Eq)]
pub struct KeptSegment {
    pub place: usize,
    pub size: usize,
}

// What an id leads to: its first segment, its first kept segment, and its first external with its name.
#[derive(Clone, Copy, Debug, PartialEq, Eq)]
pub struct IdRow {
    pub segment: Mark,
    pub kept: Option<KeptSegment>,
    pub external: Mark,
    pub name: Part,
}
