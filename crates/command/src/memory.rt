// What a program lends that lists names: the lists of the collection, and the lines. Each list is made by a function, so that the checker never writes one
// out.
//
// How many rows: a library of 65,536 bytes has at most 9,362 segments (an absolute content takes 7 bytes at least, the definition of a segment 9), 9,362
// references (a fixup takes 7) and 10,922 public definitions (6 each). So these never run out, unless a public definition belongs to many segments: to
// several of one id, or to absolute contents that overlap. Pattern bytes are as many as the segments say they are long: twice the file's length is lent,
// where an ordinary library takes less than once. How many lines there are depends on the image too: there is a row and a half for every eight bytes of the
// longest one; ordinary firmware takes some hundreds.
ghost use Rattle.std.specs.Prelude.{◌≡◌, replicate};

use run::Counts;

const SEGMENTS: usize = 9362;

const REFERENCES: usize = 9362;

const SYMBOLS: usize = 10922;

pub const PATTERN: usize = 131072;

const LINES: usize = 12288;

// How many numbers the rows take: a segment has eight, a reference six, a symbol three and a line four.
pub const SEGMENT_NUMBERS: usize = 8 * SEGMENTS;

pub const REFERENCE_NUMBERS: usize = 6 * REFERENCES;

pub const SYMBOL_NUMBERS: usize = 3 * SYMBOLS;

pub const LINE_NUMBERS: usize = 4 * LINES;

// How much is lent of each, for whoever is refused for want of it. Each program tells how many rows it lends for placed symbols and for noted names.
pub fn lent_with(placed: usize, noted: usize) -> Counts {
    Counts {
        segments: SEGMENTS,
        references: REFERENCES,
        symbols: SYMBOLS,
        pattern: PATTERN,
        placed,
        noted,
        lines: LINES,
    }
}

// A list to lend, of so many items that are all the same.
pub fn filled<T: Copy, const N: usize>(item: T) -> [T; N]
    ensures { result ≡ replicate N item }
{
    [item; N]
}
