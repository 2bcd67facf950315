// Segments that the search looks for, as the collection makes them from the modules.
#![tactic(auto)]

pub mod masks;
pub mod put;
pub mod recalled;
pub mod rows;

use image::Seat;
use image::fixup::Kind;
use lent::part::Part;

// The number of a segment in the whole file.
#[derive(Clone, Copy, Debug, PartialEq, Eq)]
pub struct SegmentNumber(pub usize);

// The goal of a reference: a segment of the same module, or the name of an external.
#[derive(Clone, Copy, Debug, PartialEq, Eq)]
pub enum Goal {
    Segment(SegmentNumber),
    Name(Part),
}

// A reference out of a pattern: its place in the pattern, its kind, the fixup's offset, which is
// added to the goal's address, and the goal.
#[derive(Clone, Copy, Debug, PartialEq, Eq)]
pub struct Reference {
    pub place: usize,
    pub kind: Kind,
    pub offset: usize,
    pub goal: Goal,
}

// A symbol of a segment: a match of the segment places the name at match position + offset.
#[derive(Clone, Copy, Debug, PartialEq, Eq)]
pub struct Symbol {
    pub name: Part,
    pub offset: usize,
}

// A segment in lent memory: where it may stand, and which parts of the pattern memory, of the
// references and of the symbols are its own.
#[derive(Clone, Copy, Debug, PartialEq, Eq)]
pub struct SegmentRow {
    pub seat: Seat,
    pub pattern: Part,
    pub references: Part,
    pub symbols: Part,
}
