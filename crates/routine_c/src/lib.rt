// The exported function for walks, of a static library of its own. callers/walk.h says for C callers what each parameter is.
#![tactic(auto)]

ghost use Rattle.std.specs.Prelude.{◌≡◌, set};
ghost use Rattle.image.specs.Cover.{no_stretches, gathered};
ghost use Rattle.routine.specs.Outcome.{outcome};
ghost use Rattle.routine_c.specs.Exported.{handed};

use image::cover::gather;
use routine::walk::walk_routine;

// Puts a number at a place of a list, if the list has that place.
fn put(list: &mut [u64], i: usize, n: u64)
    ensures { list.new ≡ set list.old i n }
{
    if i < list.len() {
        list[i] = n;
    }
}

// Walks a routine of an image. Gives 0 or the number of a refusal, leaves the instructions in `rows`, and in `counts` how
// many they are and why no more are shown. What is withheld is a list of numbers: start, length, start, length, and so on.
#[unsafe(no_mangle)]
pub extern "C" fn sillmarble_walk(
    image: &[u8],
    start: usize,
    withheld: &[u64],
    counts: &mut [u64],
    rows: &mut [u64],
) -> u8
    ensures { record { number = result; rows = rows.new; counts = counts.new } ≡ handed (outcome image.now (gathered no_stretches withheld.now) start rows.old) counts.old }
{
    let answer = walk_routine(image, gather(withheld), start, rows);
    let (number, steps, stop) = match answer {
        Ok(walked) => (0, walked.steps as u64, u64::from(walked.why)),
        Err(r) => (u8::from(r), 0, 0),
    };
    put(counts, 0, steps);
    put(counts, 1, stop);
    number
}
