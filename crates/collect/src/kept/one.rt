// One kept segment: its pattern, its references, its symbols, and then its row.
ghost use Rattle.std.specs.Prelude.{◌≤◌, length};
ghost use Rattle.segment_parts.specs.AddedReferences.{Placeable};
ghost use Rattle.collect.specs.stored.Segments.{lists, StoresKept};

use crate::stored::row::{filled_to, finish, fits};
use crate::stored::{CollectCounts, NoRoom};
use image::Seat;
use segment_parts::carried::Carried;
use segment_parts::patterns::merge_along;
use segment_parts::references::refer_along;
use segment_parts::symbols::name_along;

// From what a kept segment is stored: the links to its first content and to its first public definition, and its size.
#[derive(Clone, Copy, Debug, PartialEq, Eq)]
pub struct KeptFrom {
    pub content: u32,
    pub public: u32,
    pub size: usize,
}

// Stores one kept segment in the five lists of the collection, behind what `c` counts. The contents from its link on (in
// `contents`) make its pattern and references, the public definitions from its other link on (in `publics`) its symbols.
// `table` tells of ids, `number` is that of the module's first segment.
pub fn store_kept(
    library: &[u8],
    table: &[u32],
    number: usize,
    from: KeptFrom,
    contents: &[u64],
    publics: &[u64],
    c: CollectCounts,
    segments: &mut [u64],
    references: &mut [u64],
    symbols: &mut [u64],
    bytes: &mut [u8],
    masks: &mut [u8],
    apart: &mut [u8],
) -> Result<CollectCounts, NoRoom>
    requires { Placeable table.now number 0 × (65536 ≤ length apart.old) }
    ensures { StoresKept library.now table.now number from contents.now publics.now c
        (lists segments.old references.old symbols.old bytes.old masks.old) apart.old
        (lists segments.new references.new symbols.new bytes.new masks.new) apart.new result }
{
    let size = from.size;
    if !fits(c.pattern, size, bytes.len()) {
        return Err(NoRoom);
    }
    if !fits(c.pattern, size, masks.len()) {
        return Err(NoRoom);
    }
    merge_along(
        library,
        from.content,
        contents,
        c.pattern,
        size,
        bytes,
        masks,
        apart,
    );
    let r = refer_along(
        library,
        table,
        number,
        from.content,
        contents,
        references,
        filled_to(c.references),
    );
    let y = name_along(
        library,
        from.public,
        publics,
        Carried::All,
        symbols,
        filled_to(c.symbols),
    );
    finish(Seat::Anywhere, c, c.pattern + size, r, y, segments)
}
