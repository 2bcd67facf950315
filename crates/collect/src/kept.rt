// The kept segments of a module, in the order of their definitions.
ghost use Rattle.std.specs.Prelude.{◌≡◌, ◌<◌, ◌≤◌, length};
ghost use Rattle.segments.specs.Ids.{id_of, size_of};
ghost use Rattle.segment_parts.specs.AddedReferences.{Placeable};
ghost use Rattle.collect.specs.stored.Segments.{lists};
ghost use Rattle.collect.specs.kept.Kept.{kept_from, StoresKeeps};

pub mod one;

use crate::kept::one::{KeptFrom, store_kept};
use crate::stored::row::since;
use crate::stored::{CollectCounts, NoRoom};
use library::items::NextDefinition;
use library::items::decoded::next_definition;
use library::items::entries::start;
use module_ids::row::id_row;
use module_ids::table::{id_of, is_kept};
use module_index::owner::{head_of, link_at};
use omf51::Definition;

// The size of a segment; other definitions have none.
fn size_of(d: Definition) -> usize
    ensures { result ≡ size_of d }
{
    match d {
        Definition::Segment { size, .. } => size,
        Definition::Public { .. } | Definition::External { .. } => 0,
    }
}

// From what the kept segment that `d` defines is stored; `place` is its place among the module's kept segments. The
// tables tell which contents (`table`, `first`) and which public definitions (`heads`) go to it.
fn kept_from(d: Definition, place: usize, table: &[u32], first: &[u32], heads: &[u32]) -> KeptFrom
    ensures { (result ≡ kept_from d place table.now first.now heads.now) × ((id_of d).0 < 65536) }
{
    let id = id_of(d);
    let row = id_row(table, id);
    KeptFrom {
        content: link_at(first, id, row, place),
        public: head_of(heads, id),
        size: size_of(d),
    }
}

// Stores all kept segments of a module, whose definitions start at `from`, behind what `before` counts. The module's
// tables are filled: what its ids lead to (`table`), its contents by id (`first`, `contents`), its public definitions by
// id (`heads`, `publics`). The rows go into the five lists of the collection.
pub fn store_keeps(
    library: &[u8],
    from: usize,
    table: &[u32],
    first: &[u32],
    contents: &[u64],
    heads: &[u32],
    publics: &[u64],
    before: CollectCounts,
    segments: &mut [u64],
    references: &mut [u64],
    symbols: &mut [u64],
    bytes: &mut [u8],
    masks: &mut [u8],
    apart: &mut [u8],
) -> Result<CollectCounts, NoRoom>
    requires { Placeable table.now before.segments 0 × (65536 ≤ length apart.old) }
    ensures { StoresKeeps library.now from table.now first.now contents.now heads.now publics.now before
        (lists segments.old references.old symbols.old bytes.old masks.old) apart.old
        (lists segments.new references.new symbols.new bytes.new masks.new) apart.new result }
{
    let number = before.segments;
    let mut at = start(from);
    let mut c = before;
    while let Some(NextDefinition { definition, rest }) = next_definition(library, at) {
        if is_kept(definition) {
            let place = since(number, c.segments).len;
            let kept = kept_from(definition, place, table, first, heads);
            c = store_kept(
                library, table, number, kept, contents, publics, c, segments, references, symbols,
                bytes, masks, apart,
            )?;
        }
        at = rest;
    }
    Ok(c)
}
