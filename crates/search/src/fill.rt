// The rows of the search, filled with the help of tables that are made for it.
ghost use Rattle.std.specs.Prelude.{◌≡◌, ◌≤◌, ◌||◌, length};
ghost use Rattle.search.specs.Store.{seen, stored_in};
ghost use Rattle.search.specs.visit.Visits.{ToldOf};
ghost use Rattle.search.specs.Fills.{FillsRows};

use crate::byte_index::index::index;
use crate::visit::Fills;
use crate::visit::all::search_all;
use crate::{StoredSegments, View};
use search_rules::Asked;
use tables::fill::Fill;
use tables::zeros::{BYTE_HEADS, FEW_PLACES, PLACES, zeros};

// An image of at most so many bytes is short.
const SHORT_IMAGE: usize = 4096;

// Whether there was no room for a row of either kind.
pub fn lacks_room(f: Fills) -> bool
    ensures { result ≡ (f.placed.over || f.noted.over) }
{
    f.placed.over || f.noted.over
}

// Fills the rows of placed symbols and of noted names from all matches of the segments. The heads of both kinds of rows,
// `positions` and `goals`, are to be blank. A short image takes small tables of links and of answers.
pub fn fill_rows(
    view: View,
    asked: Asked,
    library: &[u8],
    store: StoredSegments,
    placed: &mut [u64],
    positions: &mut [u32],
    noted: &mut [u64],
    goals: &mut [u32],
) -> Fills
    requires { length view.image.now ≤ 65536 }
    ensures { FillsRows (seen view.entry) asked library.now (stored_in store.entry) store.entry.n
        placed.old positions.old noted.old goals.old placed.new positions.new noted.new goals.new result }
{
    if view.image.len() <= SHORT_IMAGE {
        let mut next: [u32; FEW_PLACES] = zeros();
        let mut told: [u16; FEW_PLACES] = zeros();
        return fill_along(
            view, asked, library, store, &mut next, &mut told, placed, positions, noted, goals,
        );
    }
    let mut next: [u32; PLACES] = zeros();
    let mut told: [u16; PLACES] = zeros();
    fill_along(
        view, asked, library, store, &mut next, &mut told, placed, positions, noted, goals,
    )
}

// The same with a table of links, `next`, and one of answers, `told`: makes the byte index of the image, and goes over the
// segments.
fn fill_along(
    view: View,
    asked: Asked,
    library: &[u8],
    store: StoredSegments,
    next: &mut [u32],
    told: &mut [u16],
    placed: &mut [u64],
    positions: &mut [u32],
    noted: &mut [u64],
    goals: &mut [u32],
) -> Fills
    requires { (length view.image.now ≤ 65536) × (length view.image.now ≤ length next.old)
        × ToldOf (seen view) asked (stored_in store) store.n told.old }
    ensures { FillsRows (seen view.entry) asked library.now (stored_in store.entry) store.entry.n
        placed.old positions.old noted.old goals.old placed.new positions.new noted.new goals.new result }
{
    placed.fill(0);
    noted.fill(0);
    let mut first: [u32; BYTE_HEADS] = zeros();
    index(view.image, &mut first, next);
    let none = Fill {
        rows: 0,
        over: false,
    };
    let before = Fills {
        placed: none,
        noted: none,
    };
    search_all(
        view, asked, library, store, &first, next, told, placed, positions, noted, goals, before,
    )
}
