// The references of a segment, as the fixups of its contents leave them.
ghost use Rattle.std.specs.Prelude.{◌≡◌, length};
ghost use Rattle.segments.specs.SegmentLayouts.{reference_layout};
ghost use Rattle.tables.specs.fill.FilledRows.{Adds};
ghost use Rattle.tables.specs.links.Things.{places_of, next_of};
ghost use Rattle.library.specs.items.Left.{fixups_left};
ghost use Rattle.module_ids.specs.reference.LeftReference.{left_by};
ghost use Rattle.segment_parts.specs.AddedReferences.{Placeable, Refers, RefersAlong};

use library::items::contents::next_content;
use library::items::decoded::next_fixup;
use library::items::{Cursor, NextContent, NextFixup};
use module_ids::reference::reference_of;
use module_ids::row::id_row;
use segments::Reference;
use tables::fill::{Fill, append};
use tables::links::{next_at, place_at};

// Puts the reference that a fixup leaves, if it leaves one.
fn append_left(left: Option<Reference>, m: &mut [u64], f: Fill) -> Fill
    ensures { Adds reference_layout (left_by left) m.old f m.new result × (length m.new ≡ length m.old) }
{
    match left {
        Some(reference) => append(m, f, reference),
        None => f,
    }
}

// Puts the references that the fixups from a cursor on leave, behind the rows of `m` that are filled before. `table` tells
// what the module's ids lead to; `number` is that of the module's first segment; `base` is added to the fixups' locations.
pub fn refer(
    library: &[u8],
    table: &[u32],
    number: usize,
    base: usize,
    from: Cursor,
    m: &mut [u64],
    before: Fill,
) -> Fill
    requires { Placeable table.now number base }
    ensures { Refers table.now number base (fixups_left library.now from) m.old before m.new result }
{
    let mut c = from;
    let mut f = before;
    while let Some(NextFixup { fixup, rest }) = next_fixup(library, c) {
        let row = id_row(table, fixup.id);
        let left = reference_of(row, number, base, fixup);
        f = append_left(left, m, f);
        c = rest;
    }
    f
}

// Puts the references of all contents that are met from a link on, each with its content's offset added to its
// location. `contents` has the module's contents.
pub fn refer_along(
    library: &[u8],
    table: &[u32],
    number: usize,
    link: u32,
    contents: &[u64],
    m: &mut [u64],
    before: Fill,
) -> Fill
    requires { Placeable table.now number 0 }
    ensures { RefersAlong library.now table.now number link (next_of contents.now) (places_of contents.now) m.old before m.new result }
{
    let mut last = 0;
    let mut here = link as usize;
    let mut f = before;
    while last < here {
        let place = place_at(contents, here - 1);
        let Some(
            NextContent {
                content,
                fixups,
                ..
            },
        ) = next_content(library, place)
        else {
            return f;
        };
        f = refer(library, table, number, content.offset, fixups, m, f);
        last = here;
        here = next_at(contents, here - 1);
    }
    f
}
