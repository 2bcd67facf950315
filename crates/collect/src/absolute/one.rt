// One absolute content: a segment of its own, which may stand at its address only.
ghost use Rattle.std.specs.Prelude.{◌≤◌, length};
ghost use Rattle.segment_parts.specs.AddedReferences.{Placeable};
ghost use Rattle.segment_parts.specs.symbols_by_offset.Flags.{Clear};
ghost use Rattle.collect.specs.stored.Segments.{lists, WholeContent, StoresAbsolute};

use crate::stored::row::{filled_to, finish, fits};
use crate::stored::{CollectCounts, NoRoom};
use image::Seat;
use library::items::Cursor;
use omf51::Content;
use segment_parts::carried::Window;
use segment_parts::patterns::{Spot, merge_content};
use segment_parts::references::refer;
use segment_parts::symbols_by_offset::names::name_inside;

// From what an absolute content is stored: the content and its fixups, whether its symbols keep their own addresses (see
// `is_own`), and how many public definitions of id 0 there are.
#[derive(Clone, Copy)]
pub struct AbsoluteFrom {
    pub content: Content,
    pub fixups: Cursor,
    pub own: bool,
    pub n: usize,
}

// Stores one absolute content behind what `c` counts. The public definitions of id 0 with an offset inside it are its
// symbols, found by `publics` and `heads`. `table` tells what the ids lead to, `number` is that of the module's first
// segment.
pub fn store_absolute(
    library: &[u8],
    table: &[u32],
    number: usize,
    from: AbsoluteFrom,
    publics: &[u64],
    heads: &[u32],
    c: CollectCounts,
    segments: &mut [u64],
    references: &mut [u64],
    symbols: &mut [u64],
    bytes: &mut [u8],
    masks: &mut [u8],
    apart: &mut [u8],
    flags: &mut [u8],
) -> Result<CollectCounts, NoRoom>
    requires { Placeable table.now number 0 × ((65536 ≤ length apart.old) × (WholeContent library.now from.content × Clear flags.old)) }
    ensures { StoresAbsolute library.now table.now number from publics.now heads.now c
        (lists segments.old references.old symbols.old bytes.old masks.old) apart.old flags.old
        (lists segments.new references.new symbols.new bytes.new masks.new) apart.new flags.new result }
{
    let content = from.content;
    let fixups = from.fixups;
    let size = content.part.len;
    let window = Window {
        at: content.offset,
        len: size,
        own: from.own,
    };
    if !fits(c.pattern, size, bytes.len()) {
        return Err(NoRoom);
    }
    if !fits(c.pattern, size, masks.len()) {
        return Err(NoRoom);
    }
    let spot = Spot {
        start: c.pattern,
        size,
        offset: 0,
    };
    merge_content(library, content, fixups, spot, bytes, masks, apart);
    let r = refer(
        library,
        table,
        number,
        0,
        fixups,
        references,
        filled_to(c.references),
    );
    let y = name_inside(
        library,
        window,
        publics,
        from.n,
        heads,
        flags,
        symbols,
        filled_to(c.symbols),
    );
    finish(
        Seat::Only(content.offset),
        c,
        c.pattern + size,
        r,
        y,
        segments,
    )
}
