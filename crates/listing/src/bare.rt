// Positions without rows, which most are: the heads of their buckets are 0, and they are passed over many at a time.
ghost use Rattle.std.specs.Prelude.{◌+◌, ◌≤◌, length};
ghost use Rattle.listing.specs.Bare.{IsBare, Skips};

use tables::links::number_at;

// How many positions are tested at once.
const PART: usize = 8;

// Whether the heads of 8 positions from `at` on are all 0, of both kinds. No test stands between the heads, so that the
// compiler can test many at once.
fn is_bare(positions: &[u32], goals: &[u32], at: usize) -> bool
    requires { (at + 8 ≤ length positions.now) × (at + 8 ≤ length goals.now) }
    ensures { IsBare positions.now goals.now at result }
{
    let mut some = 0;
    for j in 0..PART {
        some |= positions[at + j] | goals[at + j];
    }
    some == 0
}

// Passes over positions without rows from `from` on, part by part, and so by no range.
fn skip_parts(positions: &[u32], goals: &[u32], from: usize, end: usize) -> usize
    ensures { Skips positions.now goals.now from end result }
{
    let most = end.min(positions.len()).min(goals.len());
    let mut at = from;
    while at < most && PART <= most - at && is_bare(positions, goals, at) {
        at += PART;
    }
    at
}

// Passes over positions without rows from `from` on: to the first that has one, or to the image's end.
pub fn skip_bare(positions: &[u32], goals: &[u32], from: usize, end: usize) -> usize
    ensures { Skips positions.now goals.now from end result }
{
    let mut at = from;
    while at < end && number_at(positions, at) == 0 && number_at(goals, at) == 0 {
        at = skip_parts(positions, goals, at + 1, end);
    }
    at
}
