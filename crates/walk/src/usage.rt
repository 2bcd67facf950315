// What is wrong with the command line of a walk. The words are those of a list, but for the second file, which is an
// address here, and the options, of which there is one.
use command::message::{about, say};
use command::mistake::{Fault, Mistake, say_usage};
use command::options::{Kind, Valued, kind_of};
use command::words;
use std::env::Env;
use system::arguments;
use system::standard_error::StandardError;

// What a word is: --withhold, whose value is the next word; an option of another command; or anything else.
#[derive(Clone, Copy)]
enum Word {
    Withhold,
    Other,
    Plain,
}

fn word_of(rt: &impl Env, i: usize) -> Word {
    let mut room = words::room();
    let n = words::read_word(rt, i, &mut room);
    match kind_of(&room[..n]) {
        Kind::Valued(Valued::Withhold) => Word::Withhold,
        Kind::NoCheck | Kind::Valued(_) => Word::Other,
        _ => Word::Plain,
    }
}

// Whether no option of another command is given; says so where one is.
pub fn only_withholds(rt: &(impl Env + StandardError)) -> bool {
    let count = arguments::count(rt);
    let mut is_value = false;
    for i in 1..count {
        if is_value {
            is_value = false;
            continue;
        }
        match word_of(rt, i) {
            Word::Withhold => is_value = true,
            Word::Other => {
                about(
                    rt,
                    b"usage: there is no option ",
                    i,
                    b" (--help tells all)\n",
                );
                return false;
            }
            Word::Plain => {}
        }
    }
    true
}

pub fn say_wrong(rt: &(impl Env + StandardError), m: Mistake) {
    match m.fault {
        Fault::ThirdFile => about(
            rt,
            b"usage: only an image and an address are taken, and there is also ",
            m.word,
            b" (--help tells all)\n",
        ),
        Fault::NoImage => say(
            rt,
            b"usage: an image and an address are to be named (--help tells all)\n",
        ),
        Fault::NoLibrary => say(
            rt,
            b"usage: an address is to be named behind the image (--help tells all)\n",
        ),
        _ => say_usage(rt, m),
    }
}
