// The search of an image for segments that are stored in lent memory.
#![tactic(auto)]

pub mod byte_index;
pub mod depth;
pub mod entry;
pub mod failed;
pub mod fill;
pub mod matches;
pub mod note;
pub mod place;
pub mod rows;
pub mod targets;
pub mod told;
pub mod visit;

// How many rows of placed symbols and of noted names were written.
#[derive(Clone, Copy)]
pub struct SearchCounts {
    pub placed: usize,
    pub noted: usize,
}

// An image, and the stretches of it that are withheld: a start and a length each.
#[derive(Clone, Copy)]
pub struct View<'a> {
    pub image: &'a [u8],
    pub s: &'a [u64],
}

// A collection as it is stored in lent memory: its first n segments, their references and symbols, and the bytes and masks
// of their patterns.
#[derive(Clone, Copy)]
pub struct StoredSegments<'a> {
    pub segments: &'a [u64],
    pub n: usize,
    pub references: &'a [u64],
    pub symbols: &'a [u64],
    pub bytes: &'a [u8],
    pub masks: &'a [u8],
}
