// All segments of a module: its kept segments first, then its absolute contents.
ghost use Rattle.std.specs.Prelude.{◌≤◌, length};
ghost use Rattle.segment_parts.specs.AddedReferences.{Placeable};
ghost use Rattle.module_index.specs.Indexed.{Blank};
ghost use Rattle.collect.specs.stored.Segments.{lists};
ghost use Rattle.collect.specs.one_module.Parts.{StoresBothParts};

use crate::absolute::Absolutes;
use crate::one_module::ModuleTask;
use crate::one_module::part::{first_part, second_part};
use crate::stored::{CollectCounts, NoRoom};
use module_index::owner::head_of;
use omf51::ModuleId;

// Stores all segments of a module in the five lists of the collection. The tables of ids (`table`) and contents
// (`first`, `contents`) are filled; those of public definitions (`publics`, `heads`) are blank: each part fills them in
// its own way. `apart` has room for masks.
pub fn both_parts(
    library: &[u8],
    task: ModuleTask,
    table: &[u32],
    first: &[u32],
    contents: &[u64],
    c: CollectCounts,
    publics: &mut [u64],
    heads: &mut [u32],
    segments: &mut [u64],
    references: &mut [u64],
    symbols: &mut [u64],
    bytes: &mut [u8],
    masks: &mut [u8],
    apart: &mut [u8],
) -> Result<CollectCounts, NoRoom>
    requires { Placeable table.now c.segments 0 × ((65536 ≤ length apart.old) × (Blank 6 library.now publics.old heads.old × (length publics.old ≤ 174848))) }
    ensures { StoresBothParts library.now task table.now first.now contents.now c publics.new heads.new
        (lists segments.old references.old symbols.old bytes.old masks.old) apart.old
        (lists segments.new references.new symbols.new bytes.new masks.new) apart.new result }
{
    let more = first_part(
        library,
        task.at.definitions,
        table,
        first,
        contents,
        c,
        publics,
        heads,
        segments,
        references,
        symbols,
        bytes,
        masks,
        apart,
    )?;
    let absolutes = Absolutes {
        link: head_of(first, ModuleId(0)),
        own: task.own,
        number: c.segments,
    };
    second_part(
        library,
        task.at.definitions,
        absolutes,
        table,
        contents,
        more,
        publics,
        heads,
        segments,
        references,
        symbols,
        bytes,
        masks,
        apart,
    )
}
