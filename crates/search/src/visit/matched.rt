// One match: its references are gone over in file order, and then its symbols are placed.
ghost use Rattle.std.specs.Prelude.{◌≡◌, ◌&&◌, ◌||◌, nat_lt};
ghost use Rattle.search.specs.Store.{seen, stored_in};
ghost use Rattle.search.specs.visit.Visits.{VisitsMatch};

use crate::note::refer::refer_all;
use crate::place::place_symbols;
use crate::visit::{Fills, Hit};
use crate::{StoredSegments, View};
use search_rules::Asked;
use tables::fill::Fill;

// Whether a match places no symbols: the check to a depth above 1 says so, `deep`, or a reference failed at depth 1, where
// references are checked. What fails there fails at every depth above.
fn keeps_out(depth: u64, failed: bool, deep: bool) -> bool
    ensures { result ≡ (deep || (nat_lt 0 depth && failed)) }
{
    deep || (0 < depth && failed)
}

// How far the two lists of the search are filled. What is placed is put together of its parts: copied as a whole it would
// take the unused bytes behind `over` along, at every match.
fn fills(placed: Fill, noted: Fill) -> Fills
    ensures { result ≡ record { placed = placed; noted = noted } }
{
    Fills {
        placed: Fill {
            rows: placed.rows,
            over: placed.over,
        },
        noted,
    }
}

// Goes over one match. Where it does not hold to the depth that is asked its symbols are kept out; the names that its
// references noted stay. At a depth above 1 `deep` says whether a reference fails there. The other parameters are those of
// `search_all`.
pub fn visit_match(
    view: View,
    asked: Asked,
    library: &[u8],
    store: StoredSegments,
    hit: Hit,
    deep: bool,
    placed: &mut [u64],
    positions: &mut [u32],
    noted: &mut [u64],
    goals: &mut [u32],
    f: Fills,
) -> Fills
    ensures { VisitsMatch (seen view.entry) asked library.now (stored_in store.entry) store.entry.n hit.number hit.row hit.valid hit.at deep
        placed.old positions.old noted.old goals.old f placed.new positions.new noted.new goals.new result }
{
    let referred = refer_all(
        view,
        asked.rules,
        hit.at,
        hit.valid,
        library,
        store,
        hit.row.references,
        noted,
        goals,
        f.noted,
    );
    if keeps_out(asked.depth, referred.failed.is_err(), deep) {
        return fills(f.placed, referred.fill);
    }
    let filled = place_symbols(
        library,
        view.image.len(),
        hit.number,
        hit.at,
        hit.valid,
        store.symbols,
        hit.row.symbols,
        placed,
        positions,
        f.placed,
    );
    fills(filled, referred.fill)
}
