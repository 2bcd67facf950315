// The masks of a content, as its fixups change them.
ghost use Rattle.std.specs.Prelude.{◌≡◌, ◌+◌, set};
ghost use Rattle.segments.specs.Masks.{masked};

use omf51::Fixup;

// Puts a mask at a place; a place past the end of the masks is passed over.
fn put(masks: &mut [u8], at: usize, mask: u8)
    ensures { masks.new ≡ set masks.old at mask }
{
    if at < masks.len() {
        masks[at] = mask;
    }
}

// Sets the mask after a place to 0. No sum is taken past the end, so that none can wrap.
fn clear_after(masks: &mut [u8], at: usize)
    ensures { masks.new ≡ set masks.old (at + 1) 0 }
{
    if at < masks.len() {
        put(masks, at + 1, 0);
    }
}

// Changes a content's masks by one fixup, which writes over what stood there: a Word (kind 4) 0 and 0, an Inblock (kind
// 5) 1Fh and 0, any other kind a single 0, a fixup of block 3 nothing.
pub fn mask(masks: &mut [u8], f: Fixup)
    ensures { masks.new ≡ masked masks.old f }
{
    let at = f.location;
    if f.block == 3 {
        return;
    }
    if f.kind == 4 {
        put(masks, at, 0);
        clear_after(masks, at);
        return;
    }
    if f.kind == 5 {
        put(masks, at, 0x1f);
        clear_after(masks, at);
        return;
    }
    put(masks, at, 0);
}
