// What is wrong with a command line, and how that is said.
ghost use Rattle.std.specs.Prelude.{◌≡◌};

use crate::message::{quote, say, say_number};
use crate::number::NumberError;
use std::env::Env;
use std::fmt;
use system::standard_error::StandardError;

#[derive(Clone, Copy, Debug, PartialEq, Eq)]
pub enum Fault {
    TooLong,
    Unknown,
    Twice,
    NoValue,
    ThirdFile,
    NoImage,
    NoLibrary,
    NotANumber,
    NumberTooLarge,
    NoSuchRules,
    NotAStretch,
    BothDepths,
}

// Which fault, and the number of the word that has it; 0 for a word that is not there.
#[derive(Clone, Copy, Debug, PartialEq, Eq)]
pub struct Mistake {
    pub fault: Fault,
    pub word: usize,
}

impl Fault {
    // This fault of word i.
    pub fn at(self, i: usize) -> Mistake
        ensures { result ≡ record { fault = self; word = i } }
    {
        Mistake {
            fault: self,
            word: i,
        }
    }
}

impl From<NumberError> for Fault {
    ghost use Rattle.command.specs.Words.{number_fault};

    ghost from_gives = { λ e fault. fault ≡ number_fault e };

    fn from(e: NumberError) -> Fault {
        match e {
            NumberError::TooLarge => Fault::NumberTooLarge,
            NumberError::NotANumber => Fault::NotANumber,
        }
    }
}

// What is said of a fault, up to the word that has it.
impl fmt::Display for Fault {
    fn fmt<W: fmt::Write>(&self, f: &mut fmt::Formatter<W>) -> fmt::Result {
        f.write_str(match self {
            Fault::TooLong => "an argument is longer than 4096 bytes: number ",
            Fault::Unknown => "there is no option ",
            Fault::Twice | Fault::NoValue => "the option ",
            Fault::ThirdFile => "only an image and a library are taken, and there is also ",
            Fault::NoImage => "an image and a library are to be named",
            Fault::NoLibrary => "a library is to be named behind the image",
            Fault::NotANumber => "a number is decimal, or hexadecimal behind 0x, and not ",
            Fault::NumberTooLarge => "a number is at most 18446744073709551615, and not ",
            Fault::NoSuchRules => "the rules are found or documented, and not ",
            Fault::NotAStretch => "what is withheld is START:LENGTH, and not ",
            Fault::BothDepths => "--no-check is --depth 0, and only one of the two is taken",
        })
    }
}

// What is said behind the word.
fn words_behind(fault: Fault) -> &'static str {
    match fault {
        Fault::Twice => " is given twice",
        Fault::NoValue => " lacks its value",
        _ => "",
    }
}

pub fn say_usage(rt: &(impl Env + StandardError), m: Mistake) {
    say(rt, b"usage: ");
    let _ = rt.eprint(m.fault);
    match m.fault {
        Fault::TooLong => say_number(rt, m.word as u64),
        Fault::NoImage | Fault::NoLibrary | Fault::BothDepths => {}
        _ => quote(rt, m.word),
    }
    say(rt, words_behind(m.fault).as_bytes());
    say(rt, b" (--help tells all)\n");
}
