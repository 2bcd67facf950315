// The entry point of the search.
ghost use Rattle.std.specs.Prelude.{◌≡◌};
ghost use Rattle.image.specs.View.{stretches_in, view};
ghost use Rattle.search.specs.visit.Visits.{stored};
ghost use Rattle.search.specs.Outcome.{search_zeroed, Searches};

use crate::fill::{fill_rows, lacks_room};
use crate::{SearchCounts, StoredSegments, View};
use image::LONGEST_IMAGE;
use lent::refusal::Refusal;
use search_rules::Asked;

// Sets all seven lists that were lent, those of the collection and those of the search, to zero.
pub fn clear_all(
    segments: &mut [u64],
    references: &mut [u64],
    symbols: &mut [u64],
    bytes: &mut [u8],
    masks: &mut [u8],
    placed: &mut [u64],
    noted: &mut [u64],
)
    ensures { record { stored = stored segments.new references.new symbols.new bytes.new masks.new; placed = placed.new; noted = noted.new }
        ≡ search_zeroed (record { stored = stored segments.old references.old symbols.old bytes.old masks.old; placed = placed.old; noted = noted.old }) }
{
    segments.fill(0);
    references.fill(0);
    symbols.fill(0);
    bytes.fill(0);
    masks.fill(0);
    placed.fill(0);
    noted.fill(0);
}

// Searches the image, of which the stretches `s` are withheld, for the first n segments in the five lists of the
// collection, and writes rows of placed symbols and of noted names. Names are parts of `library`. An image that is too
// long is refused, and nothing is written; if there are too few rows all seven lists are left zero. The contract speaks
// of heads, `positions` and `goals`, that are blank before, and lead to the rows afterwards.
pub fn search(
    image: &[u8],
    s: &[u64],
    asked: Asked,
    library: &[u8],
    n: usize,
    segments: &mut [u64],
    references: &mut [u64],
    symbols: &mut [u64],
    bytes: &mut [u8],
    masks: &mut [u8],
    placed: &mut [u64],
    noted: &mut [u64],
    positions: &mut [u32],
    goals: &mut [u32],
) -> Result<SearchCounts, Refusal>
    ensures { Searches (view image.now (stretches_in s.now)) asked library.now n
        (record { stored = stored segments.old references.old symbols.old bytes.old masks.old; placed = placed.old; noted = noted.old }) positions.old goals.old
        (record { answer = result; left = record { stored = stored segments.new references.new symbols.new bytes.new masks.new; placed = placed.new; noted = noted.new } }) positions.new goals.new }
{
    if LONGEST_IMAGE < image.len() {
        return Err(Refusal::ImageTooLong);
    }
    let view = View { image, s };
    let store = StoredSegments {
        segments,
        n,
        references,
        symbols,
        bytes,
        masks,
    };
    let f = fill_rows(view, asked, library, store, placed, positions, noted, goals);
    if lacks_room(f) {
        clear_all(segments, references, symbols, bytes, masks, placed, noted);
        return Err(Refusal::TooFewRows);
    }
    Ok(SearchCounts {
        placed: f.placed.rows,
        noted: f.noted.rows,
    })
}
