// Which reference of a match fails first at a depth, and why (W-208, W-209): a match at 0 whose references lead to a RET, to a
// name, and to a name by a word of which the image has one byte. The RET's segment has the same references, which fail there.
use crate::show::{NOTHING, number, say};
use image::fixup::Rules;
use lent::part::Part;
use search::depth::first_failed;
use search::{StoredSegments, View};
use search_rules::Why;

// Segment 0: one byte of a pattern, which may stand anywhere.
const SEGMENTS: [u64; 8] = [0, 0, 0, 1, 0, 3, 0, 0];
// Each row: place, kind, offset, and the goal: segment 0, or a name.
const REFERENCES: [u64; 18] = [0, 4, 0, 0, 0, 0, 2, 2, 0, 1, 0, 0, 5, 4, 0, 1, 0, 0];

fn reason(rt: &impl Print, why: Why) {
    match why {
        Why::PastEnd => say(rt, b" past the end"),
        Why::Withheld => say(rt, b" withheld"),
        Why::NoMatch => say(rt, b" no match"),
        Why::NotHeld => say(rt, b" not held"),
    }
}

fn first(rt: &impl Print, image: &[u8], s: &[u64], depth: u64, count: usize) {
    let part = Part { at: 0, len: count };
    let view = View { image, s };
    let store = StoredSegments {
        segments: &SEGMENTS,
        n: 1,
        references: &REFERENCES,
        symbols: &NOTHING,
        bytes: b"\x22",
        masks: b"\xff",
    };
    match first_failed(view, Rules::Documented, depth, 0, store, part) {
        Ok(()) => say(rt, b" none"),
        Err(failure) => {
            number(rt, failure.number);
            reason(rt, failure.why);
        }
    }
    say(rt, b";");
}

pub fn first_failures(rt: &impl Print) {
    let led = b"\x00\x04\x00\x00\x22\x05";
    say(rt, b"Fails first:");
    first(rt, led, &NOTHING, 1, 2);
    first(rt, led, &NOTHING, 1, 3);
    first(rt, led, &[2, 1], 1, 3);
    first(rt, led, &[5, 1], 1, 3);
    first(rt, led, &[4, 1], 1, 3);
    first(rt, b"\x00\x03\x00\x00\x22\x05", &NOTHING, 1, 3);
    first(rt, led, &NOTHING, 0, 3);
    first(rt, led, &NOTHING, 2, 2);
    say(rt, b"\n");
}
