// The two parts of a module's segments. Each part fills the tables of public definitions in its own way, and leaves
// them blank: the first with all public definitions by id, the second with those of id 0 by offset.
ghost use Rattle.std.specs.Prelude.{◌≤◌, length};
ghost use Rattle.segment_parts.specs.AddedReferences.{Placeable};
ghost use Rattle.module_index.specs.Indexed.{Blank};
ghost use Rattle.collect.specs.stored.Segments.{lists};
ghost use Rattle.collect.specs.one_module.Parts.{StoresFirstPart, StoresSecondPart};

use crate::absolute::{Absolutes, store_absolutes};
use crate::kept::store_keeps;
use crate::stored::{CollectCounts, NoRoom};
use module_index::gather::publics::PublicsBy;
use module_index::index_publics;
use tables::links::unlink;

// Stores the kept segments of a module, whose definitions start at `from`, behind what `c` counts. The module's ids
// (`table`) and contents (`first`, `contents`) are indexed already; its public definitions are indexed here, by id
// (`publics`, `heads`).
pub fn first_part(
    library: &[u8],
    from: usize,
    table: &[u32],
    first: &[u32],
    contents: &[u64],
    c: CollectCounts,
    publics: &mut [u64],
    heads: &mut [u32],
    segments: &mut [u64],
    references: &mut [u64],
    symbols: &mut [u64],
    bytes: &mut [u8],
    masks: &mut [u8],
    apart: &mut [u8],
) -> Result<CollectCounts, NoRoom>
    requires { Placeable table.now c.segments 0 × ((65536 ≤ length apart.old) × Blank 6 library.now publics.old heads.old) }
    ensures { StoresFirstPart library.now from table.now first.now contents.now c publics.new heads.new
        (lists segments.old references.old symbols.old bytes.old masks.old) apart.old
        (lists segments.new references.new symbols.new bytes.new masks.new) apart.new result }
{
    let n = index_publics(library, from, PublicsBy::Id, publics, heads);
    let stored = store_keeps(
        library, from, table, first, contents, heads, publics, c, segments, references, symbols,
        bytes, masks, apart,
    );
    unlink(publics, n, heads);
    stored
}

// Stores the absolute contents of a module, whose definitions start at `from`, behind what `c` counts. Most modules have
// no absolute content, and then nothing is indexed; else the public definitions of id 0 are indexed here, by offset
// (`publics`, `heads`).
pub fn second_part(
    library: &[u8],
    from: usize,
    absolutes: Absolutes,
    table: &[u32],
    contents: &[u64],
    c: CollectCounts,
    publics: &mut [u64],
    heads: &mut [u32],
    segments: &mut [u64],
    references: &mut [u64],
    symbols: &mut [u64],
    bytes: &mut [u8],
    masks: &mut [u8],
    apart: &mut [u8],
) -> Result<CollectCounts, NoRoom>
    requires { Placeable table.now absolutes.number 0 × ((65536 ≤ length apart.old) × (Blank 6 library.now publics.old heads.old × (length publics.old ≤ 174848))) }
    ensures { StoresSecondPart library.now from absolutes table.now contents.now c publics.new heads.new
        (lists segments.old references.old symbols.old bytes.old masks.old) apart.old
        (lists segments.new references.new symbols.new bytes.new masks.new) apart.new result }
{
    if absolutes.link == 0 {
        return Ok(c);
    }
    let n = index_publics(library, from, PublicsBy::Offset, publics, heads);
    let stored = store_absolutes(
        library, absolutes, table, contents, publics, n, heads, c, segments, references, symbols,
        bytes, masks, apart,
    );
    unlink(publics, n, heads);
    stored
}
