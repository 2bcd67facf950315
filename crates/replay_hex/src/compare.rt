// Case by case: whether the answers agree.
use crate::trial;
use crate::trial::{Came, ROOM};
use lent::names::name;
use lent::part::Part;
use recorded::cases::{CutShort, LIMIT, begins_with};
use recorded::numbers::{four_at, within};
use recorded::show::{cut_short, outcomes, say, say_number};
use recorded::tally::Tally;
use std::io::Read;
use system::files::fill;

// The head of a case: the job, the number, four bytes each for the lengths of the input and of the buffer, for how many
// bytes are written, and for the digest of the buffer as it is left.
const HEAD: usize = 18;

const EXPORT: u8 = 1;

// A case by its head: the job, how long input and buffer are, and what is recorded of it.
#[derive(Clone, Copy, Debug, PartialEq, Eq)]
struct Case {
    exports: bool,
    input: usize,
    buffer: usize,
    recorded: Came,
}

fn case_of(head: &[u8; HEAD]) -> Case {
    Case {
        exports: head[0] == EXPORT,
        input: four_at(head, 2) as usize,
        buffer: four_at(head, 6) as usize,
        recorded: Came {
            number: u64::from(head[1]),
            size: four_at(head, 10),
            left: four_at(head, 14),
        },
    }
}

// Whether an export comes back where it wrote something, and agrees.
fn export_holds(recorded: Came, image: &[u8], out: &mut [u8]) -> bool {
    let came = trial::export(image, out);
    if came.number == 0 && !trial::comes_back(image, out, came.size as usize) {
        return false;
    }
    came == recorded
}

// Whether a case agrees, with a buffer of the length that it says.
fn holds(case: Case, input: &[u8]) -> bool {
    let mut room = trial::room();
    let n = within(ROOM, case.buffer);
    if case.exports {
        return export_holds(case.recorded, input, &mut room[..n]);
    }
    trial::import(input, &mut room[..n]) == case.recorded
}

// Counts a case; exports are counted apart.
fn compare(case: Case, input: &[u8], tally: &mut Tally) {
    if holds(case, input) {
        tally.count(case.recorded.number, 0, case.exports);
    } else {
        tally.count_differing();
    }
}

// The next case of the file, whose input then stands at the front of the room; none where the file ends.
fn next_case(cases: &mut impl Read, input: &mut [u8]) -> Result<Option<Case>, CutShort> {
    let mut head = [0u8; HEAD];
    if fill(cases, &mut head).size < HEAD {
        return Ok(None);
    }
    let case = case_of(&head);
    if input.len() < case.input {
        return Err(CutShort);
    }
    if fill(cases, &mut input[..case.input]).size < case.input {
        return Err(CutShort);
    }
    Ok(Some(case))
}

// From case to case; how many there are.
fn compare_each(
    rt: &impl Print,
    cases: &mut impl Read,
    input: &mut [u8],
    tally: &mut Tally,
) -> u64 {
    for passed in 0..LIMIT {
        match next_case(cases, input) {
            Ok(Some(case)) => {
                let part = Part {
                    at: 0,
                    len: case.input,
                };
                compare(case, name(input, part), tally);
            }
            Ok(None) => return passed,
            Err(CutShort) => {
                cut_short(rt, passed);
                return passed;
            }
        }
    }
    LIMIT
}

pub fn compare_all(rt: &impl Print, cases: &mut impl Read, tally: &mut Tally) {
    if !begins_with(rt, cases, 0x0178_6568) {
        return;
    }
    let mut input = trial::room();
    let passed = compare_each(rt, cases, &mut input, tally);
    outcomes(rt, tally, passed, b" recorded cases agree: done ");
    say_number(
        rt,
        b"; exports, of which each that was done came back: ",
        tally.own,
    );
    say(rt, b"\n");
}
