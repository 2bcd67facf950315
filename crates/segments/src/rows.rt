// The rows of the collection in lent memory are read by number: segments, references and symbols. Any numbers make a row.
ghost use Rattle.std.specs.Prelude.{◌≡◌};
ghost use Rattle.segments.specs.SegmentLayouts.{seat_from, kind_from, goal_from, segment_row_at, reference_at, symbol_at};

use crate::{Goal, Reference, SegmentNumber, SegmentRow, Symbol};
use image::Seat;
use image::fixup::Kind;
use lent::part::Part;
use lent::rows;

// How many numbers the row of a segment has.
pub const SEGMENT_WIDTH: usize = 8;

// How many numbers the row of a reference has.
pub const REFERENCE_WIDTH: usize = 6;

// How many numbers the row of a symbol has.
pub const SYMBOL_WIDTH: usize = 3;

// A case of an enum as two numbers: its tag, and what it holds.
#[derive(Clone, Copy, Debug, PartialEq, Eq)]
pub struct Pair {
    pub tag: u64,
    pub held: u64,
}

// A case of an enum as three numbers: its tag, and the two numbers that it holds.
#[derive(Clone, Copy, Debug, PartialEq, Eq)]
pub struct Triple {
    pub tag: u64,
    pub first: u64,
    pub second: u64,
}

// Where a segment may stand, from its tag and its address; a tag other than 1 counts as 0.
fn seat_from(tag: u64, address: u64) -> Seat
    ensures { result ≡ seat_from tag address }
{
    if tag == 1 {
        Seat::Only(address as usize)
    } else {
        Seat::Anywhere
    }
}

// The goal of a reference, from its tag and its two numbers; a tag other than 1 counts as 0.
fn goal_from(tag: u64, first: u64, second: u64) -> Goal
    ensures { result ≡ goal_from tag first second }
{
    if tag == 1 {
        Goal::Name(Part {
            at: first as usize,
            len: second as usize,
        })
    } else {
        Goal::Segment(SegmentNumber(first as usize))
    }
}

// The kind of a number; a number that is neither 2 nor 4 counts as Inblock.
fn kind_from(n: u64) -> Kind
    ensures { result ≡ kind_from n }
{
    if n == 2 {
        Kind::Relative
    } else if n == 4 {
        Kind::Word
    } else {
        Kind::Inblock
    }
}

// The segment in row i, made of zeros where there is no such row.
pub fn segment_at(m: &[u64], i: usize) -> SegmentRow
    ensures { result ≡ segment_row_at m.now i }
{
    let n = rows::numbers(m, SEGMENT_WIDTH, i);
    SegmentRow {
        seat: seat_from(n[0], n[1]),
        pattern: Part {
            at: n[2] as usize,
            len: n[3] as usize,
        },
        references: Part {
            at: n[4] as usize,
            len: n[5] as usize,
        },
        symbols: Part {
            at: n[6] as usize,
            len: n[7] as usize,
        },
    }
}

// The reference in row i, made of zeros where there is no such row.
pub fn reference_at(m: &[u64], i: usize) -> Reference
    ensures { result ≡ reference_at m.now i }
{
    let n = rows::numbers(m, REFERENCE_WIDTH, i);
    Reference {
        place: n[0] as usize,
        kind: kind_from(n[1]),
        offset: n[2] as usize,
        goal: goal_from(n[3], n[4], n[5]),
    }
}

// The symbol in row i, made of zeros where there is no such row.
pub fn symbol_at(m: &[u64], i: usize) -> Symbol
    ensures { result ≡ symbol_at m.now i }
{
    let n = rows::numbers(m, SYMBOL_WIDTH, i);
    Symbol {
        name: Part {
            at: n[0] as usize,
            len: n[1] as usize,
        },
        offset: n[2] as usize,
    }
}
