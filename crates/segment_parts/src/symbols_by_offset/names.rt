// The symbols of an absolute content: the public definitions of id 0 with an offset inside it, in file order.
ghost use Rattle.std.specs.Prelude.{◌<◌, ◌≤◌, ◌^◌};
ghost use Rattle.tables.specs.links.Things.{keys_of, places_of, next_of};
ghost use Rattle.segment_parts.specs.symbols_by_offset.Flags.{Clear};
ghost use Rattle.segment_parts.specs.symbols_by_offset.Inside.{NamesAt, NamesBlocks, NamesInside};

use crate::carried::{Carried, Window};
use crate::symbols::append_public;
use crate::symbols_by_offset::flags::{Blocks, clear_blocks, flag_at, flag_inside};
use tables::fill::Fill;
use tables::links::{key_at, place_at};

// Puts the symbol of public definition j, if its offset is inside the window. Most offsets are not, and their definitions
// are passed over without reading the library.
fn name_place(
    library: &[u8],
    window: Window,
    publics: &[u64],
    j: usize,
    m: &mut [u64],
    f: Fill,
) -> Fill
    ensures { NamesAt library.now window.at window.len window.own (keys_of publics.now) (places_of publics.now) j m.old f m.new result }
{
    if window.contains(key_at(publics, j)) {
        let place = place_at(publics, j);
        return append_public(library, place, Carried::Inside(window), m, f);
    }
    f
}

// Puts the symbols of the public definitions inside the window, going over the flagged blocks; a block
// without a flag is passed over at once. `publics` has the public definitions of id 0 by offset; n of them count. The place
// goes on by one or by a block, so that this is no walk over a range.
fn name_blocks(
    library: &[u8],
    window: Window,
    publics: &[u64],
    n: usize,
    s: Blocks,
    flags: &[u8],
    m: &mut [u64],
    before: Fill,
) -> Fill
    requires { (s.low ≤ 2 ^ 32) × (s.high ≤ 2 ^ 32) }
    ensures { NamesBlocks library.now window.at window.len window.own (keys_of publics.now) n (places_of publics.now) s flags.now m.old before m.new result }
{
    let mut j = s.low * 256;
    let mut f = before;
    while j < n {
        let b = j / 256;
        if s.high <= b {
            return f;
        }
        if flag_at(flags, b) == 0 {
            j = (b + 1) * 256;
        } else {
            f = name_place(library, window, publics, j, m, f);
            j += 1;
        }
    }
    f
}

// Puts the symbols of an absolute content, whose bytes are the window, behind the filled rows of `m`. The public definitions
// of id 0 are linked by offset (`publics`, of which n count, and `first`). Links meet them out of file order, so that
// they only flag blocks, which are then gone over; `flags` is lent and left clear.
pub fn name_inside(
    library: &[u8],
    window: Window,
    publics: &[u64],
    n: usize,
    first: &[u32],
    flags: &mut [u8],
    m: &mut [u64],
    before: Fill,
) -> Fill
    requires { (window.at < 65536) × ((window.len < 65536) × Clear flags.old) }
    ensures { NamesInside library.now window.at window.len window.own (keys_of publics.now) n (places_of publics.now) first.now (next_of publics.now) flags.old flags.new m.old before m.new result }
{
    let s = flag_inside(window.at, window.len, first, publics, flags);
    let f = name_blocks(library, window, publics, n, s, flags, m, before);
    clear_blocks(flags, s);
    f
}
