// The options by their words, and what is known of them so far.
ghost use Rattle.std.specs.Prelude.{◌≡◌};
ghost use Rattle.command.specs.Options.{option_of, kind_of, no_options, is_given, held_with, with_value, unchecked_of};

use crate::mistake::Mistake;
use crate::stretch::stretch_value;
use crate::values::{number_value, rules_value};
use image::Stretch;
use lent::names::same;

// The options that have a value, which is the next word.
#[derive(Clone, Copy, Debug, PartialEq, Eq)]
pub enum Valued {
    Rules,
    Edition,
    Depth,
    Minimum,
    Skip,
    Withhold,
}

// What a word is that is no option's value.
#[derive(Clone, Copy, Debug, PartialEq, Eq)]
pub enum Kind {
    NoCheck,
    Valued(Valued),
    Unknown,
    File,
}

// The options so far: the value of each that is given, or what is wrong with it. `check` is false once --no-check is given; that --depth is not given beside it
// is asked behind the last word. --withhold may be given more than once: all its values so far are stretches, or the first that is none is kept.
#[derive(Clone, Copy)]
pub struct Options {
    pub rules: Option<Result<u64, Mistake>>,
    pub edition: Option<Result<u64, Mistake>>,
    pub check: bool,
    pub depth: Option<Result<u64, Mistake>>,
    pub minimum: Option<Result<u64, Mistake>>,
    pub skip: Option<Result<u64, Mistake>>,
    pub withheld: Result<(), Mistake>,
}

// It is a chain of tests, since as a `match` on byte strings 75 goals stay open, one for each byte at which a word may be
// another.
#[tactic(auto, unfolding(crate::specs::Options::option_in))]
fn option_of(word: &[u8]) -> Kind
    ensures { result ≡ option_of word.now }
{
    if same(word, b"--no-check") {
        return Kind::NoCheck;
    }
    if same(word, b"--depth") {
        return Kind::Valued(Valued::Depth);
    }
    if same(word, b"--min-fn-length") {
        return Kind::Valued(Valued::Minimum);
    }
    if same(word, b"--skip-multiple") {
        return Kind::Valued(Valued::Skip);
    }
    if same(word, b"--rules") {
        return Kind::Valued(Valued::Rules);
    }
    if same(word, b"--edition") {
        return Kind::Valued(Valued::Edition);
    }
    if same(word, b"--withhold") {
        return Kind::Valued(Valued::Withhold);
    }
    Kind::Unknown
}

// A word that begins with - is an option, any other a file.
#[tactic(auto, unfolding(crate::specs::Options::kind_of))]
pub fn kind_of(word: &[u8]) -> Kind
    ensures { result ≡ kind_of word.now }
{
    match word {
        [b'-', ..] => option_of(word),
        _ => Kind::File,
    }
}

pub fn no_options() -> Options
    ensures { result ≡ no_options }
{
    Options {
        rules: None,
        edition: None,
        check: true,
        depth: None,
        minimum: None,
        skip: None,
        withheld: Ok(()),
    }
}

// Whether an option has its value already. There may be several stretches.
pub fn is_given(o: Options, option: Valued) -> bool
    ensures { result ≡ is_given o option }
{
    match option {
        Valued::Rules => o.rules.is_some(),
        Valued::Edition => o.edition.is_some(),
        Valued::Depth => o.depth.is_some(),
        Valued::Minimum => o.minimum.is_some(),
        Valued::Skip => o.skip.is_some(),
        Valued::Withhold => false,
    }
}

// One value more of --withhold; one that was wrong before is told.
fn held_with(known: Result<(), Mistake>, read: Result<Stretch, Mistake>) -> Result<(), Mistake>
    ensures { result ≡ held_with known read }
{
    known?;
    read?;
    Ok(())
}

// The options with the value of one more, which is word i.
pub fn with_value(o: Options, option: Valued, word: &[u8], i: usize) -> Options
    ensures { result ≡ with_value o option word.now i }
{
    match option {
        Valued::Rules => Options {
            rules: Some(rules_value(word, i)),
            ..o
        },
        Valued::Edition => Options {
            edition: Some(number_value(word, i)),
            ..o
        },
        Valued::Depth => Options {
            depth: Some(number_value(word, i)),
            ..o
        },
        Valued::Minimum => Options {
            minimum: Some(number_value(word, i)),
            ..o
        },
        Valued::Skip => Options {
            skip: Some(number_value(word, i)),
            ..o
        },
        Valued::Withhold => Options {
            withheld: held_with(o.withheld, stretch_value(word, i)),
            ..o
        },
    }
}

// The options with --no-check.
pub fn unchecked(o: Options) -> Options
    ensures { result ≡ unchecked_of o }
{
    Options { check: false, ..o }
}
