// What is to be withheld of an image, as it is written on the command line: START:LENGTH.
ghost use Rattle.std.specs.Prelude.{◌≡◌, position, ◌==◌};
ghost use Rattle.command.specs.Stretches.{stretch_read, stretch_value, stretch_added};

use crate::mistake::{Fault, Mistake};
use crate::values::read_number;
use crate::words::is_too_long;
use image::Stretch;
use image::cover::{Stretches, one_more};

// Where the first colon stands.
fn colon(word: &[u8]) -> Option<usize>
    ensures { result ≡ position (λ b. b == 0x3A) word.now }
{
    word.iter().position(|b| *b == b':')
}

// The number before the colon is where the stretch starts, the number behind it how many bytes it has.
fn read_stretch(word: &[u8], i: usize) -> Result<Stretch, Mistake>
    ensures { result ≡ stretch_read word.now i }
{
    let Some(at) = colon(word) else {
        return Err(Fault::NotAStretch.at(i));
    };
    let start = read_number(&word[..at], i)?;
    let len = read_number(&word[at + 1..], i)?;
    Ok(Stretch {
        start: start as usize,
        len: len as usize,
    })
}

#[tactic(auto, unfolding(crate::specs::Stretches::stretch_value))]
pub fn stretch_value(word: &[u8], i: usize) -> Result<Stretch, Mistake>
    ensures { result ≡ stretch_value word.now i }
{
    if is_too_long(word) {
        return Err(Fault::TooLong.at(i));
    }
    read_stretch(word, i)
}

// The stretches with one more. A value that is wrong adds none.
pub fn with_stretch(known: Stretches, read: Result<Stretch, Mistake>) -> Stretches
    ensures { result ≡ stretch_added known read }
{
    match read {
        Ok(s) => one_more(known, s.start as u64, s.len as u64),
        Err(_) => known,
    }
}
