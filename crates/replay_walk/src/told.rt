// Instruction by instruction: whether a step shows it as the disassembler does.
use crate::trial;
use recorded::numbers::four_at;
use recorded::show::{say, say_number};
use routine::step::step_at;
use routine::{Row, What};
use std::io::Read;
use system::files::fill;

const LIMIT: u64 = 1000000;

// An instruction: two bytes for its address; three for its bytes, with zeros behind a shorter one; its length; whether it
// is a call (1), a jump (2) or neither (0); two bytes for its target.
const ENTRY: usize = 9;

// How many instructions there are, and how many of them agree.
#[derive(Clone, Copy, Debug, PartialEq, Eq)]
struct Counts {
    told: u64,
    agreeing: u64,
}

// A number of two bytes, low byte first.
fn two(low: u8, high: u8) -> u16 {
    u16::from_le_bytes([low, high])
}

// What the disassembler tells of an instruction, if a row can say it.
fn row_in(entry: &[u8; ENTRY]) -> Option<Row> {
    let address = u64::from(two(entry[0], entry[1]));
    let what = match (entry[6], u64::from(two(entry[7], entry[8]))) {
        (0, 0) => What::Neither,
        (1, target) => What::Call(target),
        (2, target) => What::Jump(target),
        _ => return None,
    };
    Some(Row { address, what })
}

// Puts three bytes into an image, from a place on, as far as it goes.
fn put(image: &mut [u8], at: usize, bytes: [u8; 3]) {
    if let Some(rest) = image.get_mut(at..) {
        for (place, byte) in rest.iter_mut().zip(bytes) {
            *place = byte;
        }
    }
}

// Whether the step at the instruction's address shows it, with its length, in an image that is zero elsewhere.
fn agrees(image: &mut [u8], entry: &[u8; ENTRY]) -> bool {
    let at = usize::from(two(entry[0], entry[1]));
    put(image, at, [entry[2], entry[3], entry[4]]);
    let step = step_at(image, &[], at);
    put(image, at, [0; 3]);
    match (step, row_in(entry)) {
        (Ok(shown), Some(row)) => { shown.row == row && shown.next == at + usize::from(entry[5]) }
        _ => false,
    }
}

// From instruction to instruction.
fn compare_each(file: &mut impl Read, image: &mut [u8]) -> Counts {
    let mut agreeing = 0u64;
    for told in 0..LIMIT {
        let mut entry = [0u8; ENTRY];
        if fill(file, &mut entry).size < ENTRY {
            return Counts { told, agreeing };
        }
        if agrees(image, &entry) {
            agreeing = agreeing.wrapping_add(1);
        }
    }
    Counts {
        told: LIMIT,
        agreeing,
    }
}

pub fn compare_all(rt: &impl Print, file: &mut impl Read) {
    let mut start = [0u8; 4];
    if fill(file, &mut start).size < 4 {
        say(rt, b"the file of instructions is empty\n");
        return;
    }
    if four_at(&start, 0) != 0x0164_6c74 {
        say(rt, b"the file of instructions is of another version\n");
        return;
    }
    let mut image = trial::image_room();
    let counts = compare_each(file, &mut image[0..65536]);
    say_number(rt, b"", counts.agreeing);
    say_number(rt, b" of ", counts.told);
    say(rt, b" instructions are as dis51 tells them\n");
}
