// The walk itself: the file is read, the routine walked, and its rows are printed, or a refusal is said.
use crate::print::print;
use command::file;
use command::file::load;
use command::message::{say, say_number};
use image::cover::Stretches;
use routine::walk::{MOST_STEPS, walk_routine};
use routine::{ROW_WIDTH, WalkRefusal};
use std::env::Env;
use std::fs::Files;
use std::io;
use system::standard_error::StandardError;

fn say_refused(rt: &impl StandardError, r: WalkRefusal) {
    say(rt, b"refused (");
    say_number(rt, u64::from(u8::from(r)));
    say(rt, b"): ");
    let words = match r {
        WalkRefusal::ImageTooLong => "image too long (more than 65536 bytes)\n",
        WalkRefusal::TooManyStretches => "more than 16 stretches are withheld\n",
        WalkRefusal::StretchPastEnd => "a stretch that is withheld passes the image's end\n",
        WalkRefusal::StartPastEnd => "the address is at or past the image's end\n",
        WalkRefusal::NoRoom => "there are too few rows\n",
    };
    say(rt, words.as_bytes());
}

fn walk_in(
    rt: &(impl Print + StandardError),
    image: &[u8],
    withheld: Stretches,
    start: usize,
    rows: &mut [u64],
) -> io::Result<()> {
    match walk_routine(image, withheld, start, rows) {
        Ok(walked) => print(rt, image, rows, walked.steps, walked.why),
        Err(r) => {
            say_refused(rt, r);
            Ok(())
        }
    }
}

pub fn walk<R: Env + Files + Print + StandardError>(
    rt: &R,
    image: usize,
    start: usize,
    withheld: Stretches,
) -> io::Result<()> {
    let mut room = file::room();
    let Some(image) = load(rt, image, &mut room) else {
        return Ok(());
    };
    let mut rows = [0u64; MOST_STEPS * ROW_WIDTH];
    walk_in(rt, image, withheld, start, &mut rows)
}
