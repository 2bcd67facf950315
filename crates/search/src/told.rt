// What the check of references remembers: for each place of the image one answer, in a table that is made for it. A later
// answer may take the place of an earlier one. Any number is an answer, and 0 tells nothing.
ghost use Rattle.std.specs.Prelude.{◌≡◌, slice_index};
ghost use Rattle.search.specs.told.Answers.{recall_of, remembered};

// Answers are remembered of so many segments, and of depths below 4: an answer has 16 bits.
const MOST_SEGMENTS: usize = 8192;

const DEPTHS: u64 = 4;

// The answer that is remembered of a place; 0 where there is none.
pub fn answer_at(told: &[u16], at: u64) -> u16
    ensures { result ≡ slice_index told.now at }
{
    told.get(at as usize).copied().unwrap_or(0)
}

// What an answer says of the match of segment `number` to a depth: whether it holds, or nothing, if the answer is another
// one's and does not settle it. An answer is 8 times its segment's number, twice its own depth, and 1 where the match holds:
// what holds there holds at a smaller depth, and what fails fails at a greater one.
pub fn recall(answer: u16, number: usize, depth: u64) -> Option<bool>
    ensures { result ≡ recall_of answer number depth }
{
    let known = u64::from(answer / 2 % 4);
    if known == 0 || usize::from(answer / 8) != number {
        return None;
    }
    if answer % 2 == 1 {
        return (depth <= known).then_some(true);
    }
    (known <= depth).then_some(false)
}

// Remembers whether the match of segment `number` at a place holds to a depth, if there is room for such an answer.
pub fn remember(told: &mut [u16], number: usize, at: u64, depth: u64, holds: bool)
    ensures { told.new ≡ remembered told.old number at depth holds }
{
    if MOST_SEGMENTS <= number || DEPTHS <= depth || told.len() as u64 <= at {
        return;
    }
    told[at as usize] = (number * 8 + depth as usize * 2 + usize::from(holds)) as u16;
}
