// The whole command line of a program that takes an image and a library: what it asks for, told word by word.
ghost use Rattle.std.specs.Prelude.{◌≡◌};
ghost use Rattle.command.specs.Arguments.{begun, file_taken, unchecked_taken, option_taken, free_taken, taken, ended, withheld_after, after, FromWord, FromWords};

use crate::mistake::{Fault, Mistake};
use crate::options::{Kind, Options, Valued, is_given, kind_of, no_options, unchecked, with_value};
use crate::settings::{Plain, settings_of};
use crate::stretch::{stretch_value, with_stretch};
use crate::words;
use image::cover::{Stretches, no_stretches};
use std::env::Env;
use system::arguments;

// What is known of the words so far. A file is told by the number of its word, once it is named. `expected` is the option before the next word, of which that
// word can only be the value.
#[derive(Clone, Copy)]
pub struct Given {
    pub image: Option<usize>,
    pub library: Option<usize>,
    pub options: Options,
    pub expected: Option<Valued>,
}

// What one word more leads to, and what is withheld by then, which is told beside a mistake too.
#[derive(Clone, Copy)]
pub struct Reached {
    pub step: Result<Given, Mistake>,
    pub withheld: Stretches,
}

// What a whole command line asks for: what to do with which two files.
#[derive(Clone, Copy)]
pub struct Request {
    pub image: usize,
    pub library: usize,
    pub settings: Plain,
}

// All that a command line asks for.
#[derive(Clone, Copy)]
pub struct Asked {
    pub requested: Result<Request, Mistake>,
    pub withheld: Stretches,
}

// Before the first word.
fn begin() -> Given
    ensures { result ≡ begun }
{
    Given {
        image: None,
        library: None,
        options: no_options(),
        expected: None,
    }
}

// The first file is the image, the second the library.
fn take_file(known: Given, i: usize) -> Result<Given, Mistake>
    ensures { result ≡ file_taken known i }
{
    if known.image.is_none() {
        return Ok(Given {
            image: Some(i),
            ..known
        });
    }
    if known.library.is_none() {
        return Ok(Given {
            library: Some(i),
            ..known
        });
    }
    Err(Fault::ThirdFile.at(i))
}

// An option that is given twice is refused, not settled by the last; but for --withhold, which is given once for each stretch.
fn take_option(known: Given, option: Valued, i: usize) -> Result<Given, Mistake>
    ensures { result ≡ option_taken known option i }
{
    if is_given(known.options, option) {
        return Err(Fault::Twice.at(i));
    }
    Ok(Given {
        expected: Some(option),
        ..known
    })
}

fn take_no_check(known: Given, i: usize) -> Result<Given, Mistake>
    ensures { result ≡ unchecked_taken known i }
{
    if known.options.check {
        return Ok(Given {
            options: unchecked(known.options),
            expected: None,
            ..known
        });
    }
    Err(Fault::Twice.at(i))
}

// Takes a word that is no option's value.
#[tactic(auto, unfolding(crate::specs::Arguments::free_taken))]
fn take_free(known: Given, word: &[u8], i: usize) -> Result<Given, Mistake>
    ensures { result ≡ free_taken known word.now i }
{
    if words::is_too_long(word) {
        return Err(Fault::TooLong.at(i));
    }
    match kind_of(word) {
        Kind::NoCheck => take_no_check(known, i),
        Kind::Valued(option) => take_option(known, option, i),
        Kind::Unknown => Err(Fault::Unknown.at(i)),
        Kind::File => take_file(known, i),
    }
}

// Takes word i. A value that is wrong is told only once all words are gone through.
#[tactic(auto, unfolding(crate::specs::Arguments::taken))]
fn take(known: Given, word: &[u8], i: usize) -> Result<Given, Mistake>
    ensures { result ≡ taken known word.now i }
{
    let Some(option) = known.expected else {
        return take_free(known, word, i);
    };
    Ok(Given {
        options: with_value(known.options, option, word, i),
        expected: None,
        ..known
    })
}

// All words are gone through: the last option must have its value, and both files must be named.
#[tactic(auto, unfolding(crate::specs::Arguments::ended, crate::specs::Arguments::request_of))]
fn end(known: Given, last: usize) -> Result<Request, Mistake>
    ensures { result ≡ ended known last }
{
    if known.expected.is_some() {
        return Err(Fault::NoValue.at(last));
    }
    let image = known.image.ok_or(Fault::NoImage.at(0))?;
    let library = known.library.ok_or(Fault::NoLibrary.at(0))?;
    let settings = settings_of(known.options)?;
    Ok(Request {
        image,
        library,
        settings,
    })
}

// What is withheld once word i is taken: one stretch more, where the word is the value of --withhold.
fn withheld_after(expected: Option<Valued>, withheld: Stretches, word: &[u8], i: usize) -> Stretches
    ensures { result ≡ withheld_after expected withheld word.now i }
{
    match expected {
        Some(Valued::Withhold) => with_stretch(withheld, stretch_value(word, i)),
        _ => withheld,
    }
}

fn reach(known: Given, withheld: Stretches, word: &[u8], i: usize) -> Reached
    ensures { result ≡ after known withheld word.now i }
{
    Reached {
        step: take(known, word, i),
        withheld: withheld_after(known.expected, withheld, word, i),
    }
}

// Reads word i and takes it.
fn take_argument(rt: &impl Env, known: Given, withheld: Stretches, i: usize) -> Reached
    ensures { FromWord known withheld i result }
{
    let mut room = words::room();
    let n = words::read_word(rt, i, &mut room);
    reach(known, withheld, &room[..n], i)
}

// What the program's own command line asks for.
pub fn read_request(rt: &impl Env) -> Asked
    ensures { FromWords result }
{
    let count = arguments::count(rt);
    let mut known = begin();
    let mut withheld = no_stretches();
    for i in 1..count {
        let reached = take_argument(rt, known, withheld, i);
        withheld = reached.withheld;
        match reached.step {
            Ok(next) => known = next,
            Err(m) => {
                return Asked {
                    requested: Err(m),
                    withheld,
                };
            }
        }
    }
    Asked {
        requested: end(known, count.saturating_sub(1)),
        withheld,
    }
}
