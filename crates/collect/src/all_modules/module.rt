// One module: its tables are filled, its segments are stored, and the tables are made blank again.
ghost use Rattle.collect.specs.stored.Segments.{lists};
ghost use Rattle.collect.specs.all_modules.Modules.{Workable, StoresModule};

use crate::one_module::ModuleTask;
use crate::one_module::both::both_parts;
use crate::stored::{CollectCounts, NoRoom};
use module_ids::table::{clear, fill};
use module_index::index_sections;
use tables::links::unlink;

// Stores the segments of one module in the five lists of the collection, behind what `c` counts. The tables of the
// module, as in `store_all`, are lent blank, filled here, and left blank for the next module.
pub fn store_module(
    library: &[u8],
    task: ModuleTask,
    c: CollectCounts,
    table: &mut [u32],
    contents: &mut [u64],
    first: &mut [u32],
    publics: &mut [u64],
    heads: &mut [u32],
    segments: &mut [u64],
    references: &mut [u64],
    symbols: &mut [u64],
    bytes: &mut [u8],
    masks: &mut [u8],
    apart: &mut [u8],
) -> Result<CollectCounts, NoRoom>
    requires { Workable library.now c.segments table.old contents.old first.old publics.old heads.old apart.old }
    ensures { StoresModule library.now task c table.new contents.new first.new publics.new heads.new
        (lists segments.old references.old symbols.old bytes.old masks.old) apart.old
        (lists segments.new references.new symbols.new bytes.new masks.new) apart.new result }
{
    let at = task.at;
    fill(library, at.definitions, table);
    let n = index_sections(library, at.contents, contents, first);
    let stored = both_parts(
        library, task, table, first, contents, c, publics, heads, segments, references, symbols,
        bytes, masks, apart,
    );
    unlink(contents, n, first);
    clear(library, at.definitions, table);
    stored
}
