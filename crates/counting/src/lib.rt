// The functions of which bench/ counts the instructions: a library is read and gone over once, or read only; its
// segments are collected; an image is searched for them; the names that were found are listed, and the list is printed.
#![tactic(auto)]

mod items;
mod passes;

use crate::passes::over_modules;
use collect::entry::collect;
use image::fixup::Rules;
use lent::rows::put;
use library::file::read;
use listing::Found;
use listing::all_rows::list_rows;
use omf51::Edition;
use printing::print;
use search::entry::search;
use search_rules::Asked;

// No stretch is withheld.
const NOTHING: [u64; 0] = [];

// Reads a library and goes over it once; gives a sum over all that it says, or 0 for a refusal.
#[unsafe(no_mangle)]
pub extern "C" fn count_reading(library: &[u8]) -> usize {
    match read(library, Edition::One) {
        Ok(reading) => over_modules(library, reading.first, reading.count),
        Err(r) => 0,
    }
}

// Reads a library, and gives the number of its modules, or 0 for a refusal.
#[unsafe(no_mangle)]
pub extern "C" fn count_places(library: &[u8]) -> usize {
    match read(library, Edition::One) {
        Ok(reading) => reading.count,
        Err(r) => 0,
    }
}

// Reads a library and collects its segments, under rule set 0; gives 0 or the number of a refusal. With 0 the numbers
// of segments, references, symbols and pattern bytes are left in `counts`.
#[unsafe(no_mangle)]
pub extern "C" fn count_collecting(
    library: &[u8],
    counts: &mut [u64],
    segments: &mut [u64],
    references: &mut [u64],
    symbols: &mut [u64],
    bytes: &mut [u8],
    masks: &mut [u8],
) -> u8 {
    match read(library, Edition::One) {
        Ok(reading) => match collect(
            library,
            Rules::AsFound,
            reading.first,
            segments,
            references,
            symbols,
            bytes,
            masks,
        ) {
            Ok(c) => {
                let cells = [
                    c.segments as u64,
                    c.references as u64,
                    c.symbols as u64,
                    c.pattern as u64,
                ];
                put(counts, 0, &cells);
                0
            }
            Err(r) => u8::from(r),
        },
        Err(r) => u8::from(r),
    }
}

// Searches an image for the first n segments that were collected, under rule set 0 and with nothing withheld; gives 0
// or the number of a refusal. With 0 the numbers of placed symbols and noted names are left in `counts`, and the heads
// `positions` and `goals`, which are to be zeros before, lead to the rows.
#[unsafe(no_mangle)]
pub extern "C" fn count_searching(
    image: &[u8],
    depth: u64,
    minimum: usize,
    library: &[u8],
    n: usize,
    counts: &mut [u64],
    segments: &mut [u64],
    references: &mut [u64],
    symbols: &mut [u64],
    bytes: &mut [u8],
    masks: &mut [u8],
    placed: &mut [u64],
    noted: &mut [u64],
    positions: &mut [u32],
    goals: &mut [u32],
) -> u8 {
    let asked = Asked {
        rules: Rules::AsFound,
        depth,
        minimum,
    };
    match search(
        image, &NOTHING, asked, library, n, segments, references, symbols, bytes, masks, placed,
        noted, positions, goals,
    ) {
        Ok(rows) => {
            let cells = [rows.placed as u64, rows.noted as u64];
            put(counts, 0, &cells);
            0
        }
        Err(r) => u8::from(r),
    }
}

// The skip amount, if there is one.
fn skip_of(skips: bool, amount: usize) -> Option<usize> {
    skips.then_some(amount)
}

// Lists the names of the rows that a search left, `names` of them noted names, with its heads, under rule set 0 and with
// nothing withheld. Gives 0 and leaves the number of lines in `counts`, or 9 if the lines do not fit.
#[unsafe(no_mangle)]
pub extern "C" fn count_listing(
    image: &[u8],
    skips: bool,
    amount: usize,
    library: &[u8],
    n: usize,
    counts: &mut [u64],
    segments: &[u64],
    references: &[u64],
    placed: &[u64],
    positions: &[u32],
    noted: &[u64],
    goals: &[u32],
    names: usize,
    lines: &mut [u64],
) -> u8 {
    let skip = skip_of(skips, amount);
    let found = Found {
        library,
        segments,
        n,
        references,
        placed,
        positions,
        noted,
        goals,
    };
    let filled = list_rows(image, &NOTHING, Rules::AsFound, &found, skip, names, lines);
    if filled.over {
        return 9;
    }
    let cells = [filled.rows as u64];
    put(counts, 0, &cells);
    0
}

// Prints n lines, and gives the length of the text; 0 if it does not fit.
#[unsafe(no_mangle)]
pub extern "C" fn count_printing(library: &[u8], lines: &[u64], n: usize, out: &mut [u8]) -> usize {
    print(library, lines, n, out).unwrap_or(0)
}
