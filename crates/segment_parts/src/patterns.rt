// The patterns of segments: contents are merged into the part of pattern memory that a segment has.
ghost use Rattle.std.specs.Prelude.{◌≡◌, ◌<◌, ◌≤◌, length};
ghost use Rattle.tables.specs.links.Things.{places_of, next_of};
ghost use Rattle.segments.specs.Masks.{masks_of};
ghost use Rattle.library.specs.items.Left.{fixups_left};
ghost use Rattle.segment_parts.specs.merge.MergedAt.{merged_at};
ghost use Rattle.segment_parts.specs.Patterns.{Merges, MergesAlong};

use crate::merge::masks::content_masks;
use crate::merge::stretch::merge_at;
use lent::names::name;
use library::items::contents::next_content;
use library::items::{Cursor, NextContent};
use omf51::Content;
use tables::links::{next_at, place_at};

// Where a content is merged: the start and size of its segment's pattern, and the offset in it.
#[derive(Clone, Copy, Debug, PartialEq, Eq)]
pub struct Spot {
    pub start: usize,
    pub size: usize,
    pub offset: usize,
}

// Makes the masks of a content of `len` bytes in `apart`, and merges them into the masks of its segment. They are made
// apart, since a fixup overwrites only masks of its own content, while merging keeps the bits of earlier contents.
fn merge_masks(
    library: &[u8],
    fixups: Cursor,
    len: usize,
    spot: Spot,
    masks: &mut [u8],
    apart: &mut [u8],
)
    requires { len ≤ length apart.old }
    ensures { (masks.new ≡ merged_at masks.old spot.start spot.size spot.offset (masks_of len (fixups_left library.now fixups))) × (length apart.new ≡ length apart.old) }
{
    content_masks(library, fixups, &mut apart[0..len]);
    merge_at(masks, spot.start, spot.size, spot.offset, &apart[0..len]);
}

// Merges one content, with the fixups that follow it, into the bytes and the masks at a spot of pattern memory.
pub fn merge_content(
    library: &[u8],
    content: Content,
    fixups: Cursor,
    spot: Spot,
    bytes: &mut [u8],
    masks: &mut [u8],
    apart: &mut [u8],
)
    requires { (65536 ≤ length apart.old) × (content.part.len < 65536) }
    ensures { Merges library.now content (fixups_left library.now fixups) spot bytes.old masks.old apart.old bytes.new masks.new apart.new }
{
    let data = name(library, content.part);
    let len = data.len();
    merge_at(bytes, spot.start, spot.size, spot.offset, data);
    merge_masks(library, fixups, len, spot, masks, apart);
}

// Merges all contents that are met from a link on into the pattern of one segment, each at its own offset. `contents`
// has the module's contents; the pattern is the `size` bytes from `start` on in `bytes` and `masks`; `apart` is room for
// the masks of one content.
pub fn merge_along(
    library: &[u8],
    link: u32,
    contents: &[u64],
    start: usize,
    size: usize,
    bytes: &mut [u8],
    masks: &mut [u8],
    apart: &mut [u8],
)
    requires { 65536 ≤ length apart.old }
    ensures { MergesAlong library.now link (next_of contents.now) (places_of contents.now) start size bytes.old masks.old apart.old bytes.new masks.new apart.new }
{
    let mut last = 0;
    let mut here = link as usize;
    while last < here {
        let place = place_at(contents, here - 1);
        let Some(
            NextContent {
                content,
                fixups,
                ..
            },
        ) = next_content(library, place)
        else {
            return;
        };
        let spot = Spot {
            start,
            size,
            offset: content.offset,
        };
        merge_content(library, content, fixups, spot, bytes, masks, apart);
        last = here;
        here = next_at(contents, here - 1);
    }
}
