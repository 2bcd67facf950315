// The row of a segment, which is put once its pattern, its references and its symbols are stored.
ghost use Rattle.std.specs.Prelude.{◌≡◌, ◌+◌, ◌-◌, leb, length};
ghost use Rattle.collect.specs.stored.Rows.{filled_to, finished, finished_in};

use crate::stored::{CollectCounts, NoRoom};
use image::Seat;
use lent::part::Part;
use segments::SegmentRow;
use tables::fill::{Fill, append};

// The fill of memory that holds so many rows and may take more.
pub fn filled_to(rows: usize) -> Fill
    ensures { result ≡ filled_to rows }
{
    Fill { rows, over: false }
}

// Whether memory of a length, of which `used` elements are used, has room for `more`. No sum is taken that could wrap.
pub fn fits(used: usize, more: usize, len: usize) -> bool
    ensures { result ≡ leb (used + more) len }
{
    used <= len && more <= len - used
}

// The part from `start` up to `end`; an `end` before `start` makes it empty.
pub fn since(start: usize, end: usize) -> Part
    ensures { result ≡ record { at = start; len = end - start } }
{
    Part {
        at: start,
        len: end.saturating_sub(start),
    }
}

// Puts the row of a segment into the rows of segments `m`, if nothing has run out of room. `c` is what was stored
// before the segment; its pattern goes up to `end`, and its references and symbols as far as these are filled now.
#[tactic(auto, unfolding(crate::specs::stored::Rows::finished, crate::specs::stored::Rows::finished_in))]
pub fn finish(
    seat: Seat,
    c: CollectCounts,
    end: usize,
    references: Fill,
    symbols: Fill,
    m: &mut [u64],
) -> Result<CollectCounts, NoRoom>
    ensures { (result ≡ finished c end references symbols (length m.old)) × (m.new ≡ finished_in seat c end references symbols m.old) }
{
    if references.over || symbols.over {
        return Err(NoRoom);
    }
    let row = SegmentRow {
        seat,
        pattern: since(c.pattern, end),
        references: since(c.references, references.rows),
        symbols: since(c.symbols, symbols.rows),
    };
    let segments = append(m, filled_to(c.segments), row);
    if segments.over {
        return Err(NoRoom);
    }
    Ok(CollectCounts {
        segments: segments.rows,
        references: references.rows,
        symbols: symbols.rows,
        pattern: end,
    })
}
