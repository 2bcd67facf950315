// The rows of the collection in lent memory are written by number: segments, references and symbols.
ghost use Rattle.std.specs.Prelude.{◌≡◌};
ghost use Rattle.segments.specs.SegmentLayouts.{seat_pair, goal_triple, segment_layout, reference_layout, symbol_layout};
ghost use Rattle.image.specs.fixup.Target.{kind_number};

use crate::rows::{Pair, REFERENCE_WIDTH, SEGMENT_WIDTH, SYMBOL_WIDTH, Triple};
use crate::{Goal, Reference, SegmentRow, Symbol};
use image::Seat;
use image::fixup::Kind;
use lent::rows;
use lent::rows::Row;

// Where a segment may stand, as two numbers: 0 and 0 for anywhere, 1 and the address for an absolute content.
fn seat_pair(seat: Seat) -> Pair
    ensures { result ≡ seat_pair seat }
{
    match seat {
        Seat::Anywhere => Pair { tag: 0, held: 0 },
        Seat::Only(address) => Pair {
            tag: 1,
            held: address as u64,
        },
    }
}

// The goal of a reference as three numbers: 0, a segment's number and 0, or 1 and a name's place and length.
fn goal_triple(goal: Goal) -> Triple
    ensures { result ≡ goal_triple goal }
{
    match goal {
        Goal::Segment(number) => Triple {
            tag: 0,
            first: number.0 as u64,
            second: 0,
        },
        Goal::Name(name) => Triple {
            tag: 1,
            first: name.at as u64,
            second: name.len as u64,
        },
    }
}

// The number of a kind in the file. It is a function and no `From`, as `kind_from` is, since `Kind` is of another crate.
fn kind_number(kind: Kind) -> u64
    ensures { result ≡ kind_number kind }
{
    match kind {
        Kind::Relative => 2,
        Kind::Word => 4,
        Kind::Inblock => 5,
    }
}

impl Row for SegmentRow {
    ghost layout = { segment_layout };

    fn width() -> usize {
        SEGMENT_WIDTH
    }

    fn put(self, m: &mut [u64], i: usize) {
        let pair = seat_pair(self.seat);
        let cells = [
            pair.tag,
            pair.held,
            self.pattern.at as u64,
            self.pattern.len as u64,
            self.references.at as u64,
            self.references.len as u64,
            self.symbols.at as u64,
            self.symbols.len as u64,
        ];
        rows::put(m, i, &cells);
    }
}

impl Row for Reference {
    ghost layout = { reference_layout };

    fn width() -> usize {
        REFERENCE_WIDTH
    }

    fn put(self, m: &mut [u64], i: usize) {
        let number = kind_number(self.kind);
        let triple = goal_triple(self.goal);
        let cells = [
            self.place as u64,
            number,
            self.offset as u64,
            triple.tag,
            triple.first,
            triple.second,
        ];
        rows::put(m, i, &cells);
    }
}

impl Row for Symbol {
    ghost layout = { symbol_layout };

    fn width() -> usize {
        SYMBOL_WIDTH
    }

    fn put(self, m: &mut [u64], i: usize) {
        let cells = [
            self.name.at as u64,
            self.name.len as u64,
            self.offset as u64,
        ];
        rows::put(m, i, &cells);
    }
}
