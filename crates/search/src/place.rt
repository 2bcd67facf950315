// The symbols of a match are placed in lent memory.
ghost use Rattle.search.specs.place.PlacedSymbols.{PlacesOne, PlacesAll};

use lent::part::Part;
use search_rules::{PLACED_WIDTH, Placed};
use segments::recalled::lies_within;
use segments::rows::{SYMBOL_WIDTH, symbol_at};
use segments::{SegmentNumber, Symbol};
use tables::by_name::{KEYS, bucket, find, head_at, set_heads};
use tables::fill::{Fill, append};

// Places the symbol `y` of a match of segment `number` at `base`, in an image of `end` bytes. A symbol at the image's
// end or past it is omitted, and so is a symbol whose name is placed at that position already. `heads` has the heads of
// the buckets by which rows of placed symbols are found; `f` says how far these rows are filled.
pub fn place_symbol(
    library: &[u8],
    end: usize,
    number: SegmentNumber,
    base: usize,
    valid: bool,
    y: Symbol,
    placed: &mut [u64],
    heads: &mut [u32],
    f: Fill,
) -> Fill
    ensures { PlacesOne library.now end number base valid y placed.old heads.old f placed.new heads.new result }
{
    if f.over || end <= base || end - base <= y.offset {
        return f;
    }
    let position = base + y.offset;
    let key = position as u64;
    let name = y.name;
    let shared = bucket(library, key, name);
    let alike = head_at(heads, KEYS + shared);
    if find(library, placed, PLACED_WIDTH, alike, key, name) != 0 {
        return f;
    }
    let link = head_at(heads, position % KEYS);
    let more = append(
        placed,
        f,
        Placed {
            position,
            name,
            valid,
            segment: number,
            base,
            link,
            alike,
        },
    );
    if more.over {
        return more;
    }
    set_heads(heads, key, shared, more.rows);
    more
}

// Places the symbols in a part of the rows, in their order; the other parameters are those of `place_symbol`.
pub fn place_symbols(
    library: &[u8],
    end: usize,
    number: SegmentNumber,
    base: usize,
    valid: bool,
    symbols: &[u64],
    part: Part,
    placed: &mut [u64],
    heads: &mut [u32],
    before: Fill,
) -> Fill
    ensures { PlacesAll library.now end number base valid symbols.now part placed.old heads.old before placed.new heads.new result }
{
    let mut f = before;
    if !lies_within(part, symbols.len() / SYMBOL_WIDTH) {
        return f;
    }
    for k in 0..part.len {
        let y = symbol_at(symbols, part.at + k);
        f = place_symbol(library, end, number, base, valid, y, placed, heads, f);
    }
    f
}
