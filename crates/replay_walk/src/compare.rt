// Case by case: whether the answers agree.
use crate::trial;
use crate::trial::{Came, ROOM};
use recorded::cases::{CutShort, LIMIT, begins_with, start};
use recorded::numbers::{eight_at, four_at, within};
use recorded::show::{cut_short, outcomes, say};
use recorded::tally::Tally;
use std::io::Read;
use system::files::fill;

// The head of a case: the number, why the walk stopped, how many stretches there are, an empty byte; four bytes each for how
// many zeros the image begins with and how many bytes stand behind them, how many numbers are lent, how many steps are
// shown, and for the digest of the lent numbers as they are left; eight bytes for the start.
const HEAD: usize = 32;

// The numbers of 17 stretches.
const PAIRS: usize = 272;

// What is recorded of a case.
fn recorded_in(head: &[u8; HEAD]) -> Came {
    Came {
        number: u64::from(head[0]),
        why: u64::from(head[1]),
        steps: four_at(head, 16),
        left: four_at(head, 20),
    }
}

// What a case comes to, with as many numbers lent as it says.
fn came_of(head: &[u8; HEAD], pairs: &[u8], image: &[u8]) -> Came {
    let mut rows = trial::rows();
    let n = within(ROOM, four_at(head, 12) as usize);
    trial::walk(
        image,
        pairs,
        usize::from(head[2]),
        eight_at(head, 24) as usize,
        &mut rows[..n],
    )
}

fn compare(head: &[u8; HEAD], pairs: &[u8], image: &[u8], tally: &mut Tally) {
    let came = came_of(head, pairs, image);
    if came == recorded_in(head) {
        tally.count(came.number, 0, false);
    } else {
        tally.count_differing();
    }
}

// Reads n bytes behind zeros into the image's room, and answers how long the image is.
fn read_image(
    cases: &mut impl Read,
    zeros: usize,
    n: usize,
    room: &mut [u8],
) -> Result<usize, CutShort> {
    if room.len() < zeros || room.len() - zeros < n {
        return Err(CutShort);
    }
    let end = zeros + n;
    if fill(cases, &mut room[zeros..end]).size < n {
        return Err(CutShort);
    }
    Ok(end)
}

// The next case of the file, if there is one: how long its image is, which then stands in the room.
fn next_case(
    cases: &mut impl Read,
    head: &mut [u8; HEAD],
    pairs: &mut [u8; PAIRS],
    room: &mut [u8],
) -> Result<Option<usize>, CutShort> {
    if fill(cases, head).size < HEAD {
        return Ok(None);
    }
    let n = within(PAIRS, usize::from(head[2]) * 16);
    if fill(cases, &mut pairs[..n]).size < n {
        return Err(CutShort);
    }
    let zeros = four_at(head, 4) as usize;
    let size = read_image(cases, zeros, four_at(head, 8) as usize, room)?;
    Ok(Some(size))
}

// One case, if there is one, with room of its own, so that nothing of an earlier one stands in it. Answers whether there was.
fn compare_next(cases: &mut impl Read, tally: &mut Tally) -> Result<bool, CutShort> {
    let mut head = [0u8; HEAD];
    let mut pairs = [0u8; PAIRS];
    let mut room = trial::image_room();
    let Some(size) = next_case(cases, &mut head, &mut pairs, &mut room)? else {
        return Ok(false);
    };
    compare(&head, &pairs, start(&room, size), tally);
    Ok(true)
}

// From case to case; how many there are.
fn compare_each(rt: &impl Print, cases: &mut impl Read, tally: &mut Tally) -> u64 {
    for passed in 0..LIMIT {
        match compare_next(cases, tally) {
            Ok(true) => {}
            Ok(false) => return passed,
            Err(CutShort) => {
                cut_short(rt, passed);
                return passed;
            }
        }
    }
    LIMIT
}

pub fn compare_all(rt: &impl Print, cases: &mut impl Read, tally: &mut Tally) {
    if !begins_with(rt, cases, 0x016b_6c77) {
        return;
    }
    let passed = compare_each(rt, cases, tally);
    outcomes(rt, tally, passed, b" recorded walks agree: done ");
    say(rt, b"\n");
}
