// The end of the collection, once all modules are stored or there was no room: rows, or zeros and a refusal.
ghost use Rattle.std.specs.Prelude.{◌≡◌};
ghost use Rattle.omf51.specs.Module.{module_at};
ghost use Rattle.library.specs.Gathered.{items_at};
ghost use Rattle.module_ids.specs.Noted.{Fillable};
ghost use Rattle.collect.specs.stored.Segments.{lists};
ghost use Rattle.collect.specs.Outcome.{collect_zeroed};
ghost use Rattle.collect.specs.Concluded.{Concludes};

use crate::stored::{CollectCounts, NoRoom};
use lent::refusal::Refusal;
use module_ids::scan::scan;

// Sets the five lists of the collection to zero: before anything is stored, and again where the collection is refused.
pub fn clear_all(
    segments: &mut [u64],
    references: &mut [u64],
    symbols: &mut [u64],
    bytes: &mut [u8],
    masks: &mut [u8],
)
    ensures { lists segments.new references.new symbols.new bytes.new masks.new ≡ collect_zeroed (lists segments.old references.old symbols.old bytes.old masks.old) }
{
    segments.fill(0);
    references.fill(0);
    symbols.fill(0);
    bytes.fill(0);
    masks.fill(0);
}

// What the collection of the modules from the place `from` on comes to, given what was stored in its five lists. Refusals
// 10 to 13 come after 9, so that they are looked for once all is stored. `table` is the table of ids, lent clear.
pub fn conclude(
    library: &[u8],
    from: usize,
    stored: Result<CollectCounts, NoRoom>,
    table: &mut [u32],
    segments: &mut [u64],
    references: &mut [u64],
    symbols: &mut [u64],
    bytes: &mut [u8],
    masks: &mut [u8],
) -> Result<CollectCounts, Refusal>
    requires { Fillable library.now table.old }
    ensures { Concludes library.now (items_at library.now (module_at library.now) from) (lists segments.old references.old symbols.old bytes.old masks.old) stored
        (record { answer = result; left = lists segments.new references.new symbols.new bytes.new masks.new }) }
{
    let Ok(c) = stored else {
        clear_all(segments, references, symbols, bytes, masks);
        return Err(Refusal::TooFewRows);
    };
    if let Err(r) = scan(library, from, table) {
        clear_all(segments, references, symbols, bytes, masks);
        return Err(r);
    }
    Ok(c)
}
