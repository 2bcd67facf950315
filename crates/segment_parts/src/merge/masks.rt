// The masks of a content.
ghost use Rattle.std.specs.Prelude.{◌≡◌, length};
ghost use Rattle.segments.specs.Masks.{masks_of};
ghost use Rattle.library.specs.items.Left.{fixups_left};

use library::items::decoded::next_fixup;
use library::items::{Cursor, NextFixup};
use segments::masks::mask;

// Makes the masks of a content with as many bytes as masks are lent: FFh for each byte, since all its bits count before
// the fixups, changed by each fixup from the cursor on, in file order.
pub fn content_masks(library: &[u8], fixups: Cursor, masks: &mut [u8])
    ensures { masks.new ≡ masks_of (length masks.old) (fixups_left library.now fixups) }
{
    masks.fill(0xff);
    let mut c = fixups;
    while let Some(NextFixup { fixup, rest }) = next_fixup(library, c) {
        mask(masks, fixup);
        c = rest;
    }
}
