// The two jobs: a file is read, made into the other form, and written to standard output.
use crate::words::{say_refused, say_text_too_long};
use command::file;
use command::file::{bytes_of, load};
use intel_hex::HexRefusal;
use intel_hex::export::export_image;
use intel_hex::import::import_text;
use std::env::Env;
use std::fs::Files;
use std::io;
use system::standard_error::StandardError;

// No text is longer: enough for every image in records of one byte, with CR LF.
const LONGEST: usize = 1048576;

// A byte more, so that a longer file is known by its length.
const TEXT_ROOM: usize = LONGEST + 1;

// Enough for the text of every image.
const TEXT_OUT: usize = 180236;

const IMAGE_OUT: usize = 65536;

// An array of zeros. A function makes it, so that the checker never writes it out.
fn zeros<const N: usize>() -> [u8; N] {
    [0; N]
}

// Writes what was made, or says why it was not.
fn write(
    rt: &(impl Print + StandardError),
    made: Result<usize, HexRefusal>,
    out: &[u8],
) -> io::Result<()> {
    match made {
        Ok(n) => rt.write_all(bytes_of(out, n)),
        Err(refusal) => {
            say_refused(rt, refusal);
            Ok(())
        }
    }
}

fn export(rt: &(impl Print + StandardError), image: &[u8], out: &mut [u8]) -> io::Result<()> {
    let made = export_image(image, out);
    write(rt, made, out)
}

fn import(rt: &(impl Print + StandardError), text: &[u8], out: &mut [u8]) -> io::Result<()> {
    if LONGEST < text.len() {
        say_text_too_long(rt);
        return Ok(());
    }
    let made = import_text(text, out);
    write(rt, made, out)
}

pub fn hex<R: Env + Files + Print + StandardError>(rt: &R) -> io::Result<()> {
    let mut room = file::room();
    let Some(image) = load(rt, 2, &mut room) else {
        return Ok(());
    };
    let mut out = zeros::<TEXT_OUT>();
    export(rt, image, &mut out)
}

pub fn unhex<R: Env + Files + Print + StandardError>(rt: &R) -> io::Result<()> {
    let mut room = zeros::<TEXT_ROOM>();
    let Some(text) = load(rt, 2, &mut room) else {
        return Ok(());
    };
    let mut out = zeros::<IMAGE_OUT>();
    import(rt, text, &mut out)
}
