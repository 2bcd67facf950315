// All segments, by their numbers.
ghost use Rattle.search.specs.Store.{seen, stored_in};
ghost use Rattle.search.specs.byte_index.Index.{Indexed};
ghost use Rattle.search.specs.visit.Visits.{ToldOf, VisitsAll};

use crate::visit::Fills;
use crate::visit::segment::search_segment;
use crate::{StoredSegments, View};
use search_rules::Asked;

// Searches the view for each segment of the collection. `first` and `next` are the byte index of the image, and `told` is
// what the check of references remembers. The two lists of the search, `placed` and `noted`, are filled from `before` on;
// their rows are found by the heads in `positions` and `goals`. Names are parts of `library`.
pub fn search_all(
    view: View,
    asked: Asked,
    library: &[u8],
    store: StoredSegments,
    first: &[u32],
    next: &[u32],
    told: &mut [u16],
    placed: &mut [u64],
    positions: &mut [u32],
    noted: &mut [u64],
    goals: &mut [u32],
    before: Fills,
) -> Fills
    requires { Indexed view.image.now first.now next.now × ToldOf (seen view) asked (stored_in store) store.n told.old }
    ensures { VisitsAll (seen view.entry) asked library.now (stored_in store.entry) store.entry.n
        placed.old positions.old noted.old goals.old before placed.new positions.new noted.new goals.new result }
{
    let mut f = before;
    for i in 0..store.n {
        f = search_segment(
            view, asked, library, store, first, next, i, told, placed, positions, noted, goals, f,
        );
    }
    f
}
