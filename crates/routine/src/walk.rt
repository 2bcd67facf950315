// The walk: step after step, through the first return or 256 instructions.
ghost use Rattle.std.specs.Prelude.{◌≡◌, ◌<◌, length};
ghost use Rattle.image.specs.View.{stretches_in, view};
ghost use Rattle.routine.specs.Walk.{walked};
ghost use Rattle.routine.specs.Outcome.{stored, laid, outcome};

use crate::step::step_at;
use crate::{ROW_WIDTH, Row, WalkRefusal, Walked, Why};
use image::LONGEST_IMAGE;
use image::cover::{MOST_STRETCHES, Stretches, first_pairs, passes_end};

// No walk shows more instructions.
pub const MOST_STEPS: usize = 256;

// Puts row i of the walk into the lent rows, and answers whether there was room for it.
#[tactic(auto, using(crate::proofs::WalkLaws::stores))]
fn store(rows: &mut [u64], i: usize, row: Row) -> bool
    requires { i < 256 }
    ensures { (result, rows.new) ≡ stored rows.old i row }
{
    let at = i * ROW_WIDTH;
    if rows.len() < at + ROW_WIDTH {
        return false;
    }
    rows[at] = row.address;
    rows[at + 1] = row.what.number();
    rows[at + 2] = row.what.target();
    true
}

// Walks from a place on, into rows that are set to zero first.
#[tactic(auto, using(crate::proofs::WalkLaws::begun, crate::proofs::WalkLaws::going_on))]
fn follow(image: &[u8], s: &[u64], start: usize, rows: &mut [u64]) -> Result<Walked, WalkRefusal>
    ensures { (result, rows.new) ≡ laid (walked (view image.now (stretches_in s.now)) start) (length rows.old) }
{
    rows.fill(0);
    let mut at = start;
    for i in 0..MOST_STEPS {
        let shown = match step_at(image, s, at) {
            Ok(shown) => shown,
            Err(why) => return Ok(Walked { steps: i, why }),
        };
        if !store(rows, i, shown.row) {
            rows.fill(0);
            return Err(WalkRefusal::NoRoom);
        }
        if shown.last {
            return Ok(Walked {
                steps: i + 1,
                why: Why::Return,
            });
        }
        at = shown.next;
    }
    Ok(Walked {
        steps: MOST_STEPS,
        why: Why::Limit,
    })
}

// Walks a routine of an image, from a start below the image's end on. The rows stand at the front of the lent numbers,
// with zeros behind them; rows that are too few are all set to zero, and every other refusal writes nothing.
#[tactic(auto, using(crate::proofs::OutcomeLaws::answers))]
pub fn walk_routine(
    image: &[u8],
    withheld: Stretches,
    start: usize,
    rows: &mut [u64],
) -> Result<Walked, WalkRefusal>
    ensures { (result, rows.new) ≡ outcome image.now withheld start rows.old }
{
    if LONGEST_IMAGE < image.len() {
        return Err(WalkRefusal::ImageTooLong);
    }
    if MOST_STRETCHES < withheld.count {
        return Err(WalkRefusal::TooManyStretches);
    }
    let pairs = withheld.pairs;
    let s = first_pairs(&pairs, withheld.count);
    if passes_end(s, image.len()) {
        return Err(WalkRefusal::StretchPastEnd);
    }
    if image.len() <= start {
        return Err(WalkRefusal::StartPastEnd);
    }
    follow(image, s, start, rows)
}
