// All matches of one segment, ascending.
ghost use Rattle.search.specs.Store.{seen, stored_in};
ghost use Rattle.search.specs.byte_index.Index.{Indexed};
ghost use Rattle.search.specs.visit.Visits.{ToldOf, VisitsSegment};

use crate::depth::fails_deep;
use crate::matches::{Next, next_place, start};
use crate::targets::reaches;
use crate::visit::matched::visit_match;
use crate::visit::{Fills, Hit};
use crate::{StoredSegments, View};
use lent::names::name;
use search_rules::Asked;
use segments::SegmentNumber;
use segments::rows::segment_at;

// Searches the view for segment i, and goes over its matches. A segment with no symbol and no reference leaves
// nothing, wherever it matches, and is not searched for. The check to a depth above 1 is asked here, and not where a match
// is visited. The other parameters are those of `search_all`.
pub fn search_segment(
    view: View,
    asked: Asked,
    library: &[u8],
    store: StoredSegments,
    first: &[u32],
    next: &[u32],
    i: usize,
    told: &mut [u16],
    placed: &mut [u64],
    positions: &mut [u32],
    noted: &mut [u64],
    goals: &mut [u32],
    before: Fills,
) -> Fills
    requires { Indexed view.image.now first.now next.now × ToldOf (seen view) asked (stored_in store) store.n told.old }
    ensures { VisitsSegment (seen view.entry) asked library.now (stored_in store.entry) store.entry.n i
        placed.old positions.old noted.old goals.old before placed.new positions.new noted.new goals.new result
        × ToldOf (seen view.entry) asked (stored_in store.entry) store.entry.n told.new }
{
    let row = segment_at(store.segments, i);
    let number = SegmentNumber(i);
    let mut f = before;
    if row.references.len == 0 && row.symbols.len == 0 {
        return f;
    }
    let pattern = name(store.bytes, row.pattern);
    let masked = name(store.masks, row.pattern);
    let valid = reaches(masked, asked.minimum);
    let mut left = start(view.image, row.seat, pattern, masked, first);
    while let Some(Next { at, rest }) = next_place(view, pattern, masked, next, left) {
        let deep = 1 < asked.depth
            && fails_deep(
                view,
                asked.rules,
                asked.depth,
                number,
                at,
                store,
                row.references,
                told,
            );
        let hit = Hit {
            number,
            row,
            valid,
            at,
        };
        f = visit_match(
            view, asked, library, store, hit, deep, placed, positions, noted, goals, f,
        );
        left = rest;
    }
    f
}
