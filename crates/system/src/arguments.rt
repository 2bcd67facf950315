// The words of the command line, told by their numbers; word 0 is the program's own name.
ghost use Rattle.std.specs.Prelude.{IfOk};
ghost use Rattle.system.specs.Counts.{IsPrefixLen};

use std::env::{Env, FillError};
use std::io;

// What the system says of a name that is too long, and of one that is none.
const NAME_TOO_LONG: i32 = 36;

const INVALID: i32 = 22;

// How many words there are. Without room for it a word is too long, unless it is empty; only behind the last one none is present.
pub fn count(rt: &impl Env) -> usize {
    let mut none = [0u8; 0];
    for n in 0..usize::MAX {
        if let Err(FillError::NotPresent) = rt.arg(n, &mut none) {
            return n;
        }
    }
    usize::MAX
}

// Puts word i, which names a file, at the front of a room, and answers how long it is. The errors are matched here, and
// not by a `From`, since both types are std's.
pub fn path_of(rt: &impl Env, i: usize, room: &mut [u8]) -> io::Result<usize>
    ensures { IfOk result (λ n. IsPrefixLen n room.new) }
{
    match rt.arg(i, room) {
        Ok(n) => Ok(n),
        Err(FillError::TooLong) => Err(io::Error::from_raw_os_error(NAME_TOO_LONG)),
        Err(FillError::NotPresent) => Err(io::Error::from_raw_os_error(INVALID)),
    }
}
