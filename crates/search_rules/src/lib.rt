// The rules of the search: what is asked of it, and the symbols that it places and the names that it notes, as rows.
#![tactic(auto)]

pub mod put;

use image::fixup::Rules;
use lent::part::Part;
use segments::SegmentNumber;

// What is asked of a search: the rule set, the depth to which references are checked (0: they are not), and how many masks
// other than 0 make a match valid.
#[derive(Clone, Copy)]
pub struct Asked {
    pub rules: Rules,
    pub depth: u64,
    pub minimum: usize,
}

// Why a reference of a match fails at a depth: its bytes pass the image's end; one of them is withheld; the segment to which
// it refers does not match at its target; or it does, and that match does not hold at one depth less.
#[derive(Clone, Copy, Debug, PartialEq, Eq)]
pub enum Why {
    PastEnd,
    Withheld,
    NoMatch,
    NotHeld,
}

// A reference of a match that fails, by its number among the references of the match, from 0 on.
#[derive(Clone, Copy, Debug, PartialEq, Eq)]
pub struct Failure {
    pub number: usize,
    pub why: Why,
}

// How many numbers the row of a placed symbol has.
pub const PLACED_WIDTH: usize = 8;

// How many numbers the row of a noted name has.
pub const NOTED_WIDTH: usize = 6;

// A symbol placed at a position, by the match of a segment at `base`. A link is one more than the number of an earlier row, or
// 0: `link` leads to the newest row with the same position, `alike` to the newest row in the same bucket of position and name.
#[derive(Clone, Copy)]
pub struct Placed {
    pub position: usize,
    pub name: Part,
    pub valid: bool,
    pub segment: SegmentNumber,
    pub base: usize,
    pub link: usize,
    pub alike: usize,
}

// A name noted at a target by a reference. `link` leads to the newest earlier row with the same low 16 bits of the
// target, `alike` to the newest in the same bucket of target and name.
#[derive(Clone, Copy)]
pub struct Noted {
    pub target: u64,
    pub name: Part,
    pub valid: bool,
    pub link: usize,
    pub alike: usize,
}
