// All modules of a library, one after another, until there is no room.
ghost use Rattle.std.specs.Prelude.{◌≡◌, []};
ghost use Rattle.omf51.specs.Module.{module_at};
ghost use Rattle.library.specs.Gathered.{items_at};
ghost use Rattle.collect.specs.stored.Stores.{Stores};
ghost use Rattle.collect.specs.stored.Segments.{lists};
ghost use Rattle.collect.specs.all_modules.Modules.{Workable};
ghost use Rattle.collect.specs.all_modules.All.{nothing, StoresAll};

use crate::all_modules::module::store_module;
use crate::one_module::ModuleTask;
use crate::stored::rules::is_own;
use crate::stored::{CollectCounts, NoRoom};
use image::fixup::Rules;
use library::edition::EditionOne;
use library::module::module_at;

// The counts before anything is stored.
fn none_yet() -> CollectCounts
    ensures { result ≡ nothing }
{
    CollectCounts {
        segments: 0,
        references: 0,
        symbols: 0,
        pattern: 0,
    }
}

// Stores the segments of all modules from `from` on in the five lists of the collection. The tables of a module are
// lent blank, once for all modules, since they are large: by id `table`; of contents `contents` and their heads `first`;
// of public definitions `publics` and their heads `heads`. `apart` is room for the masks of one content.
pub fn store_all(
    library: &[u8],
    rules: Rules,
    from: usize,
    table: &mut [u32],
    contents: &mut [u64],
    first: &mut [u32],
    publics: &mut [u64],
    heads: &mut [u32],
    segments: &mut [u64],
    references: &mut [u64],
    symbols: &mut [u64],
    bytes: &mut [u8],
    masks: &mut [u8],
    apart: &mut [u8],
) -> Result<CollectCounts, NoRoom>
    requires { Workable library.now 0 table.old contents.old first.old publics.old heads.old apart.old × Stores [] (lists segments.old references.old symbols.old bytes.old masks.old) nothing }
    ensures { StoresAll library.now rules (items_at library.now (module_at library.now) from) table.new
        (lists segments.old references.old symbols.old bytes.old masks.old)
        (lists segments.new references.new symbols.new bytes.new masks.new) result }
{
    let own = is_own(rules);
    let mut at = from;
    let mut c = none_yet();
    while let Ok(Some(module)) = module_at::<EditionOne>(library, at) {
        c = store_module(
            library,
            ModuleTask { at: module, own },
            c,
            table,
            contents,
            first,
            publics,
            heads,
            segments,
            references,
            symbols,
            bytes,
            masks,
            apart,
        )?;
        at = module.next;
    }
    Ok(c)
}
