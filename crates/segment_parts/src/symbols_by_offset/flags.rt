// Flags of blocks: 256 public definitions in a row are one block, and a block is flagged if a public definition in it
// is inside the absolute content at hand.
ghost use Rattle.std.specs.Prelude.{◌≡◌, ◌<◌, ◌≤◌, ◌^◌, get_or, set};
ghost use Rattle.tables.specs.links.Things.{next_of};
ghost use Rattle.segment_parts.specs.symbols_by_offset.Flags.{FlagsBlock, FlagsAlong, FlagsInside, Clears};

use tables::links::{next_at, number_at};

// Bounds of the flagged blocks: all of them lie from `low` on and below `high`.
#[derive(Clone, Copy, Debug, PartialEq, Eq)]
pub struct Blocks {
    pub low: usize,
    pub high: usize,
}

// The flag of a block, 0 past the end of the flags.
pub fn flag_at(flags: &[u8], b: usize) -> u8
    ensures { result ≡ get_or flags.now b 0 }
{
    flags.get(b).copied().unwrap_or(0)
}

// Puts the flag of a block; past the end of the flags nothing changes.
fn put_flag(flags: &mut [u8], b: usize, flag: u8)
    ensures { flags.new ≡ set flags.old b flag }
{
    if b < flags.len() {
        flags[b] = flag;
    }
}

// Flags block b, and widens the bounds so that they include it.
fn flag_block(flags: &mut [u8], s: Blocks, b: usize) -> Blocks
    requires { b < 2 ^ 32 }
    ensures { FlagsBlock b flags.old s flags.new result }
{
    put_flag(flags, b, 1);
    Blocks {
        low: s.low.min(b),
        high: s.high.max(b + 1),
    }
}

// Flags the blocks of all public definitions that are met from a link on.
fn flag_along(link: u32, publics: &[u64], before: Blocks, flags: &mut [u8]) -> Blocks
    ensures { FlagsAlong link (next_of publics.now) flags.old before flags.new result }
{
    let mut last = 0;
    let mut here = link as usize;
    let mut s = before;
    while last < here {
        s = flag_block(flags, s, (here - 1) / 256);
        last = here;
        here = next_at(publics, here - 1);
    }
    s
}

// Flags the blocks of all public definitions with an offset inside the `len` numbers from `at` on.
pub fn flag_inside(
    at: usize,
    len: usize,
    first: &[u32],
    publics: &[u64],
    flags: &mut [u8],
) -> Blocks
    requires { (at < 65536) × (len < 65536) }
    ensures { FlagsInside at len first.now (next_of publics.now) flags.old flags.new result }
{
    let mut s = Blocks {
        low: 4294967296,
        high: 0,
    };
    for offset in at..at + len {
        s = flag_along(number_at(first, offset), publics, s, flags);
    }
    s
}

// Sets the flags within the bounds to 0 again, so that no flag is left for the next content.
pub fn clear_blocks(flags: &mut [u8], s: Blocks)
    ensures { Clears s flags.old flags.new }
{
    for b in s.low..s.high {
        put_flag(flags, b, 0);
    }
}
