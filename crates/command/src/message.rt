// What a program came to stands on standard error: nothing where it did its work, else one line that begins with `refused (N): `, `usage: `, `unreadable: ` or
// `unwritten: `. The script sillmarble, in the repository's root, makes a status of that line; the program's own status is 0, but where its reader went away.
use std::env::Env;
use std::io;
use std::io::ErrorKind;
use std::process::ExitCode;
use system::standard_error::{StandardError, fail};

// The status of a program whose reader went away: the one that a shell gives to a program which the system ends for that.
const READER_GONE: u8 = 141;

pub fn say(rt: &impl StandardError, text: &[u8]) {
    rt.tell(text);
}

pub fn say_number(rt: &impl StandardError, n: u64) {
    let _ = rt.eprint(n);
}

// Word i of the command line, as it was given.
pub fn quote(rt: &(impl Env + StandardError), i: usize) {
    let mut room = [0u8; 4096];
    say(rt, b"'");
    if let Ok(n) = rt.arg(i, &mut room) {
        say(rt, &room[..n]);
    }
    say(rt, b"'");
}

// Words about word i of the command line, before and behind that word.
pub fn about(rt: &(impl Env + StandardError), before: &[u8], i: usize, behind: &[u8]) {
    say(rt, before);
    quote(rt, i);
    say(rt, behind);
}

// A file that cannot be read, and why.
pub fn say_unreadable(rt: &impl StandardError, path: &[u8], error: io::Error) {
    say(rt, b"unreadable: ");
    fail(rt, path, error);
}

// A list that cannot be written, and why; of a reader that went away nobody wants to hear. Answers the status with which the program ends.
pub fn say_unwritten(rt: &impl StandardError, error: io::Error) -> ExitCode {
    if error.kind() == ErrorKind::BrokenPipe {
        return ExitCode::from(READER_GONE);
    }
    say(rt, b"unwritten: ");
    fail(rt, b"standard output", error);
    ExitCode::SUCCESS
}

// The same, if something cannot be written.
pub fn ended(rt: &impl StandardError, written: io::Result<()>) -> ExitCode {
    match written {
        Ok(()) => ExitCode::SUCCESS,
        Err(e) => say_unwritten(rt, e),
    }
}
