// Plain numbers, as C callers have them, instead of settings, answers and counts.
ghost use Rattle.std.specs.Prelude.{◌≡◌};
ghost use Rattle.run.specs.Run.{number_of};
ghost use Rattle.exported.specs.Exported.{settings_of, counts_in, size_of, length_of};

use describe::NoRoom;
use image::cover::gather;
use lent::refusal::Refusal;
use lent::rows::put;
use run::{Counts, Settings};

// The settings of a run from plain numbers: the rule set, the edition, to what depth references are checked, the
// minimum, whether there is a skip amount and which, and the stretches as pairs of numbers.
pub fn settings_of(
    rules: u64,
    edition: u64,
    depth: u64,
    minimum: usize,
    skips: bool,
    amount: usize,
    withheld: &[u64],
) -> Settings
    ensures { result ≡ settings_of rules edition depth minimum skips amount withheld.now }
{
    Settings {
        rules,
        edition,
        depth,
        minimum,
        skip: skips.then_some(amount),
        withheld: gather(withheld),
    }
}

// Gives the number of an answer, which is 0 or that of the refusal, and puts its seven counts, all zero with a refusal, at the
// front of `counts`; a list that is too short stays as it was.
pub fn hand_over(answer: Result<Counts, Refusal>, counts: &mut [u64]) -> u8
    ensures { (result ≡ number_of answer) × (counts.new ≡ counts_in counts.old answer) }
{
    let (number, cells) = match answer {
        Ok(c) => {
            let cells = [
                c.segments as u64,
                c.references as u64,
                c.symbols as u64,
                c.pattern as u64,
                c.placed as u64,
                c.noted as u64,
                c.lines as u64,
            ];
            (0, cells)
        }
        Err(r) => (u8::from(r), [0; 7]),
    };
    put(counts, 0, &cells);
    number
}

// The length of a text that was printed; 0 if it did not fit.
pub fn size_of(printed: Result<usize, NoRoom>) -> usize
    ensures { result ≡ size_of printed }
{
    printed.unwrap_or(0)
}

// The length of a description that was written: 0 if the name has none, the largest number of 64 bits if it did not fit.
pub fn length_of(described: Result<Option<usize>, NoRoom>) -> usize
    ensures { result ≡ length_of described }
{
    match described {
        Ok(Some(n)) => n,
        Ok(None) => 0,
        Err(NoRoom) => usize::MAX,
    }
}
