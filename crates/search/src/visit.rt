// The matches of all stored segments, one after another: the references of each match note names, and its symbols are placed.
pub mod all;
pub mod matched;
pub mod segment;

use segments::{SegmentNumber, SegmentRow};
use tables::fill::Fill;

// How far the rows of placed symbols and of noted names are filled.
#[derive(Clone, Copy)]
pub struct Fills {
    pub placed: Fill,
    pub noted: Fill,
}

// A match of the segment `number`, whose row is `row`, at the place `at`; it is valid if the segment has masks enough.
#[derive(Clone, Copy)]
pub struct Hit {
    pub number: SegmentNumber,
    pub row: SegmentRow,
    pub valid: bool,
    pub at: usize,
}
