// Files that are named by bytes and read into a room.
ghost use Rattle.std.specs.Prelude.{◌≡◌};
ghost use Rattle.system.specs.Counts.{IsPrefixLen};

use std::fs::{File, Files};
use std::io;
use std::io::{ErrorKind, Read};
use std::str::from_utf8;

// How many bytes of a room were filled, and what kept it from more, where that is an error and not the file's end. It is
// no `Result`, since the bytes that were read before an error count too.
#[derive(Clone, Copy)]
pub struct Filled {
    pub size: usize,
    pub error: Option<io::Error>,
}

// Opens a file for reading. std opens a file only by a name that is UTF-8; any other name is refused as std refuses it.
pub fn open<R: Files>(rt: &R, path: &[u8]) -> io::Result<R::File> {
    match from_utf8(path) {
        Ok(text) => File::open(rt, text),
        Err(_) => Err(io::Error::from(ErrorKind::InvalidFilename)),
    }
}

// Reads until the room is full, the file ends or a read fails.
pub fn fill(file: &mut impl Read, room: &mut [u8]) -> Filled
    ensures { IsPrefixLen result.size room.new }
{
    let mut size = 0;
    while size < room.len() {
        match file.read(&mut room[size..]) {
            Ok(0) => return Filled { size, error: None },
            Ok(n) => size += n,
            Err(e) => {
                return Filled {
                    size,
                    error: Some(e),
                };
            }
        }
    }
    Filled { size, error: None }
}
