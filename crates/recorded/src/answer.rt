// What a run comes to, as 18 numbers: the refusal's number, or 0; the seven counts, zeros with a refusal; a digest of each of the eight lists as they are left;
// and a size with a digest: of an image's list its printed form. With a refusal nothing is printed.
use crate::digest::of_numbers;
use lent::names::name;
use lent::part::Part;
use lent::refusal::Refusal;
use printing::print;
use run::Counts;

pub fn digests_of(
    segments: &[u64],
    references: &[u64],
    symbols: &[u64],
    bytes: &[u8],
    masks: &[u8],
    placed: &[u64],
    noted: &[u64],
    lines: &[u64],
) -> [u64; 8] {
    [
        of_numbers(segments),
        of_numbers(references),
        of_numbers(symbols),
        of_numbers(bytes),
        of_numbers(masks),
        of_numbers(placed),
        of_numbers(noted),
        of_numbers(lines),
    ]
}

// The last two numbers.
#[derive(Clone, Copy, Debug, Default, PartialEq, Eq)]
pub struct Last {
    pub size: usize,
    pub digest: u64,
}

// The printed form of so many lines; nothing without room for it.
fn print_of(library: &[u8], lines: &[u64], n: usize, text: &mut [u8]) -> Last {
    let Ok(size) = print(library, lines, n, text) else {
        return Last::default();
    };
    Last {
        size,
        digest: of_numbers(name(text, Part { at: 0, len: size })),
    }
}

// What is printed of an answer.
fn printed_of(
    library: &[u8],
    lines: &[u64],
    came: Result<Counts, Refusal>,
    text: &mut [u8],
) -> Last {
    match came {
        Ok(c) => print_of(library, lines, c.lines, text),
        Err(_) => Last::default(),
    }
}

fn numbers(number: u64, c: Counts, left: [u64; 8], last: Last) -> [u64; 18] {
    [
        number,
        c.segments as u64,
        c.references as u64,
        c.symbols as u64,
        c.pattern as u64,
        c.placed as u64,
        c.noted as u64,
        c.lines as u64,
        left[0],
        left[1],
        left[2],
        left[3],
        left[4],
        left[5],
        left[6],
        left[7],
        last.size as u64,
        last.digest,
    ]
}

pub fn numbers_of(came: Result<Counts, Refusal>, left: [u64; 8], last: Last) -> [u64; 18] {
    match came {
        Ok(c) => numbers(0, c, left, last),
        Err(r) => numbers(u64::from(u8::from(r)), Counts::default(), left, last),
    }
}

// The numbers of a run on an image.
pub fn answer_of(
    library: &[u8],
    lines: &[u64],
    came: Result<Counts, Refusal>,
    left: [u64; 8],
    text: &mut [u8],
) -> [u64; 18] {
    numbers_of(came, left, printed_of(library, lines, came, text))
}
