// Standard error, for bytes that need not be text, as a file's name and a word of the command line are. std's `Eprint` takes text alone.
ghost use Rattle.std.specs.Prelude.{◌≤◌, length};

use std::io;
use std::io::{Cursor, Write};

pub trait StandardError: Eprint {
    // Writes the bytes. What cannot be written is lost: there is nowhere to say so.
    fn tell(&self, bytes: &[u8]);
}

impl StandardError for HostRuntime {
    fn tell(&self, bytes: &[u8]) {
        let _ = Print::write_all(&self.stderr(), bytes);
    }
}

// Longer than the words of any error.
const LONGEST: usize = 320;

// Where the words of an error of the system end: std puts its number behind them, as in ` (os error 2)`.
fn words_end(text: &[u8]) -> usize
    ensures { result ≤ length text.now }
{
    match text.iter().rposition(|b| *b == b'(') {
        Some(at) => at.saturating_sub(1),
        None => text.len(),
    }
}

// The words of an error, without its number.
fn words_of<'a>(text: &'a [u8], error: io::Error) -> &'a [u8] {
    match error.raw_os_error() {
        Some(_) => &text[..words_end(text)],
        None => text,
    }
}

// Writes a line: what failed, as the caller names it, a colon and why.
pub fn fail(rt: &impl StandardError, what: &[u8], error: io::Error) {
    let mut cursor = Cursor::new([0u8; LONGEST]);
    let _ = write!(cursor, "{error}");
    let written = cursor.position() as usize;
    let room = cursor.into_inner();
    let text = &room[..written.min(LONGEST)];
    rt.tell(what);
    rt.tell(b": ");
    rt.tell(words_of(text, error));
    rt.tell(b"\n");
}
