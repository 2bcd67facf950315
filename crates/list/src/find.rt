// The run: both files, what is lent, and what comes of it.
use crate::memory;
use crate::memory::{NOTED_NUMBERS, PLACED_NUMBERS};
use command::file;
use command::file::load;
use command::library_room::{is_refused, taken};
use command::memory::{
    LINE_NUMBERS, PATTERN, REFERENCE_NUMBERS, SEGMENT_NUMBERS, SYMBOL_NUMBERS, filled,
};
use command::output::print;
use command::refusal_words::say_refused;
use lent::refusal::Refusal;
use libfind::entry::find_names;
use run::Settings;
use std::env::Env;
use std::fs::Files;
use std::io;
use system::standard_error::StandardError;

// No image is longer.
const LONGEST: usize = 65536;

fn find(
    rt: &(impl Print + StandardError),
    image: &[u8],
    library: &[u8],
    settings: Settings,
) -> io::Result<()> {
    let mut segments = filled::<u64, SEGMENT_NUMBERS>(0);
    let mut references = filled::<u64, REFERENCE_NUMBERS>(0);
    let mut symbols = filled::<u64, SYMBOL_NUMBERS>(0);
    let mut bytes = filled::<u8, PATTERN>(0);
    let mut masks = filled::<u8, PATTERN>(0);
    let mut placed = filled::<u64, PLACED_NUMBERS>(0);
    let mut noted = filled::<u64, NOTED_NUMBERS>(0);
    let mut lines = filled::<u64, LINE_NUMBERS>(0);
    match find_names(
        image,
        library,
        settings,
        &mut segments,
        &mut references,
        &mut symbols,
        &mut bytes,
        &mut masks,
        &mut placed,
        &mut noted,
        &mut lines,
    ) {
        Ok(counts) => print(rt, library, &lines, counts.lines),
        Err(r) => {
            say_refused(rt, r, memory::lent());
            Ok(())
        }
    }
}

fn find_in(
    rt: &(impl Print + StandardError),
    image: &[u8],
    library: &[u8],
    settings: Settings,
) -> io::Result<()> {
    if is_refused(
        library,
        image.len() <= LONGEST,
        settings.edition,
        settings.depth,
    ) {
        say_refused(rt, Refusal::LibraryTooLong, memory::lent());
        return Ok(());
    }
    find(rt, image, taken(library), settings)
}

// Lists what stands of the library in the image; both are told by the numbers of their words.
pub fn list<R: Env + Files + Print + StandardError>(
    rt: &R,
    image: usize,
    library: usize,
    settings: Settings,
) -> io::Result<()> {
    let mut first = file::room();
    let Some(image) = load(rt, image, &mut first) else {
        return Ok(());
    };
    let mut second = file::room();
    let Some(library) = load(rt, library, &mut second) else {
        return Ok(());
    };
    find_in(rt, image, library, settings)
}
