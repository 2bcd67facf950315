// The entry point of the list, for rows that a search left.
ghost use Rattle.image.specs.View.{stretches_in, view};
ghost use Rattle.search.specs.visit.Visits.{stored};
ghost use Rattle.listing.specs.Ends.{ListsFound};

use crate::all_rows::list_rows;
use crate::{FindCounts, Found};
use lent::refusal::Refusal;
use search::SearchCounts;
use search::entry::clear_all;
use search_rules::Asked;

// Lists the names that a search left in the `rows` rows of `placed` and `noted`, with the heads `positions` and `goals`,
// when it looked in the image, with its stretches `s`, for the first n segments in the five lists of the collection. The
// contract speaks only of rows and heads that a search left. If the lines do not fit all eight lists are set to zero.
pub fn list(
    image: &[u8],
    s: &[u64],
    asked: Asked,
    skip: Option<usize>,
    library: &[u8],
    n: usize,
    segments: &mut [u64],
    references: &mut [u64],
    symbols: &mut [u64],
    bytes: &mut [u8],
    masks: &mut [u8],
    placed: &mut [u64],
    noted: &mut [u64],
    lines: &mut [u64],
    positions: &[u32],
    goals: &[u32],
    rows: SearchCounts,
) -> Result<FindCounts, Refusal>
    ensures { ListsFound (view image.now (stretches_in s.now)) asked skip library.now n rows
        (record { stored = stored segments.old references.old symbols.old bytes.old masks.old; placed = placed.old; noted = noted.old }) positions.now goals.now lines.old result
        (record { stored = stored segments.new references.new symbols.new bytes.new masks.new; placed = placed.new; noted = noted.new }) lines.new }
{
    let found = Found {
        library,
        segments,
        n,
        references,
        placed,
        positions,
        noted,
        goals,
    };
    let f = list_rows(image, s, asked.rules, &found, skip, rows.noted, lines);
    if f.over {
        clear_all(segments, references, symbols, bytes, masks, placed, noted);
        lines.fill(0);
        return Err(Refusal::TooFewRows);
    }
    Ok(FindCounts {
        placed: rows.placed,
        noted: rows.noted,
        lines: f.rows,
    })
}
