// What is withheld of an image, as the settings of a run have it: up to 16 stretches, each a start and a length.
ghost use Rattle.std.specs.Prelude.{◌≡◌, ◌*◌, min, take};
ghost use Rattle.image.specs.View.{stretches_in};
ghost use Rattle.image.specs.Cover.{no_stretches, one_more, gathered, ends_past, passes_end};

use crate::{Stretch, stretch_at};

// Settings hold so many stretches.
pub const MOST_STRETCHES: usize = 16;

// The stretches of settings: the first `count` pairs of a start and a length. A count above 16 says that there are more
// than the pairs have room for.
#[derive(Clone, Copy)]
pub struct Stretches {
    pub count: usize,
    pub pairs: [u64; 32],
}

// The numbers of the pairs that say what is withheld: those of the first `count` pairs, of which there are 16.
pub fn first_pairs<'a>(pairs: &'a [u64], count: usize) -> &'a [u64]
    ensures { result.now ≡ take (2 * min count 16) pairs.now }
{
    pairs.get(..2 * count.min(MOST_STRETCHES)).unwrap_or(pairs)
}

// No stretch.
pub fn no_stretches() -> Stretches
    ensures { result ≡ no_stretches }
{
    Stretches {
        count: 0,
        pairs: [0u64; 32],
    }
}

// One stretch more. Behind the sixteenth only that there are too many is kept.
pub fn one_more(w: Stretches, start: u64, len: u64) -> Stretches
    ensures { result ≡ one_more w start len }
{
    let count = w.count;
    let mut pairs = w.pairs;
    if MOST_STRETCHES <= count {
        return Stretches { count: 17, pairs };
    }
    pairs[2 * count] = start;
    pairs[2 * count + 1] = len;
    Stretches {
        count: count + 1,
        pairs,
    }
}

// The stretches that a list of numbers gives: start, length, start, length, and so on. A start without a length has the
// largest length of 64 bits, which passes the end of every image, so that no stretch is passed over in silence.
pub fn gather(numbers: &[u64]) -> Stretches
    ensures { result ≡ gathered no_stretches numbers.now }
{
    let mut w = no_stretches();
    let mut rest = numbers;
    while let [start, len, others @ ..] = rest {
        w = one_more(w, *start, *len);
        rest = others;
    }
    match rest {
        [start, ..] => one_more(w, *start, u64::MAX),
        [] => w,
    }
}

// Whether a stretch passes the end of an image of this length. No sum is taken that could be too large.
fn ends_past(s: Stretch, len: usize) -> bool
    ensures { result ≡ ends_past len s }
{
    len < s.start || len - s.start < s.len
}

// Whether some stretch of a cover does.
pub fn passes_end(s: &[u64], len: usize) -> bool
    ensures { result ≡ passes_end len (stretches_in s.now) }
{
    let mut rest = s;
    while let [_, _, others @ ..] = rest {
        if ends_past(stretch_at(rest, 0), len) {
            return true;
        }
        rest = others;
    }
    false
}
