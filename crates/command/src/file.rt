// The files that the command line names.
use crate::message::say_unreadable;
use lent::names::name;
use lent::part::Part;
use std::env::Env;
use std::fs::Files;
use std::io;
use system::arguments::path_of;
use system::files;
use system::standard_error::StandardError;

// Longer by one byte than any file that is accepted, so that a longer file is known by its length.
pub fn room() -> [u8; 65537] {
    [0u8; 65537]
}

// Reads the file of this name into the room, as far as the file goes, and answers how many bytes that are.
fn read_named(rt: &impl Files, path: &[u8], room: &mut [u8]) -> io::Result<usize> {
    let mut file = files::open(rt, path)?;
    let filled = files::fill(&mut file, room);
    match filled.error {
        Some(e) => Err(e),
        None => Ok(filled.size),
    }
}

// Reads the file that word i names into the room, and answers its bytes; says so, and answers none, where it cannot be read.
pub fn load<'a, R: Env + Files + StandardError>(
    rt: &R,
    i: usize,
    room: &'a mut [u8],
) -> Option<&'a [u8]> {
    let mut path = [0u8; 4096];
    let n = match path_of(rt, i, &mut path) {
        Ok(n) => n,
        Err(e) => {
            say_unreadable(rt, b"", e);
            return None;
        }
    };
    match read_named(rt, &path[..n], room) {
        Ok(size) => room.get(..size),
        Err(e) => {
            say_unreadable(rt, &path[..n], e);
            None
        }
    }
}

// The bytes of the room that are the file.
pub fn bytes_of(room: &[u8], size: usize) -> &[u8] {
    name(room, Part { at: 0, len: size })
}
