// The list on standard output, a line at a time, so that a list of any length is printed.
use describe::NoRoom;
use lent::names::name;
use lent::part::Part;
use listing_rules::rows::line_at;
use printing::{print_heading, print_line};
use std::io;
use std::io::ErrorKind;

// Writes out what was put into the room. No line is longer than the room: an address takes 18 columns at most, a name 257, a description 89.
fn write(rt: &impl Print, printed: Result<usize, NoRoom>, room: &[u8]) -> io::Result<()> {
    match printed {
        Ok(len) => rt.write_all(name(room, Part { at: 0, len })),
        Err(NoRoom) => Err(io::Error::from(ErrorKind::WriteZero)),
    }
}

fn write_heading(rt: &impl Print) -> io::Result<()> {
    let mut room = [0u8; 512];
    let printed = print_heading(&mut room);
    write(rt, printed, &room)
}

fn write_line(rt: &impl Print, library: &[u8], lines: &[u64], i: usize) -> io::Result<()> {
    let mut room = [0u8; 512];
    let printed = print_line(library, line_at(lines, i), &mut room);
    write(rt, printed, &room)
}

// Writes the heading, and the lines from a number on up to another.
pub fn write_lines(
    rt: &impl Print,
    library: &[u8],
    lines: &[u64],
    from: usize,
    to: usize,
) -> io::Result<()> {
    write_heading(rt)?;
    for i in from..to {
        write_line(rt, library, lines, i)?;
    }
    Ok(())
}

// Prints the first n lines.
pub fn print(rt: &impl Print, library: &[u8], lines: &[u64], n: usize) -> io::Result<()> {
    write_lines(rt, library, lines, 0, n)
}
