// One case: what a walk answers and leaves in its rows, which are full of A5A5h before.
use image::cover::gather;
use recorded::digest::of_numbers;
use recorded::numbers::eight_at;
use routine::walk::walk_routine;
use routine::{WalkRefusal, Walked};

// No case has more numbers lent.
pub const ROOM: usize = 800;

// A case has the numbers of no more pairs.
const MOST_PAIRS: usize = 17;

// The number of a refusal, or 0; how many steps are shown, and why no more are, as a number, both 0 with a refusal; and
// the digest of the rows.
#[derive(Clone, Copy, Debug, PartialEq, Eq)]
pub struct Came {
    pub number: u64,
    pub steps: u64,
    pub why: u64,
    pub left: u64,
}

// No case has a longer image.
pub fn image_room() -> [u8; 70000] {
    [0u8; 70000]
}

pub fn rows() -> [u64; ROOM] {
    [0xa5a5u64; ROOM]
}

fn told(answer: Result<Walked, WalkRefusal>, left: u64) -> Came {
    match answer {
        Ok(walked) => Came {
            number: 0,
            steps: walked.steps as u64,
            why: u64::from(walked.why),
            left,
        },
        Err(r) => Came {
            number: u64::from(u8::from(r)),
            steps: 0,
            why: 0,
            left,
        },
    }
}

// The numbers of the stretches, eight bytes each.
fn numbers_of(pairs: &[u8]) -> [u64; MOST_PAIRS * 2] {
    let mut numbers = [0u64; MOST_PAIRS * 2];
    for (number, bytes) in numbers.iter_mut().zip(pairs.chunks_exact(8)) {
        *number = eight_at(bytes, 0);
    }
    numbers
}

// Walks with the first `count` pairs of numbers withheld.
pub fn walk(image: &[u8], pairs: &[u8], count: usize, start: usize, rows: &mut [u64]) -> Came {
    let numbers = numbers_of(pairs);
    let withheld = gather(&numbers[..count.min(MOST_PAIRS) * 2]);
    let answer = walk_routine(image, withheld, start, rows);
    told(answer, of_numbers(rows))
}
