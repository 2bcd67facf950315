// The symbols of a segment, from the public definitions of its id.
ghost use Rattle.std.specs.Prelude.{◌≡◌, ◌-◌, ◌<◌, ◌^◌};
ghost use Rattle.tables.specs.links.Things.{places_of, next_of};
ghost use Rattle.segment_parts.specs.AddedSymbols.{carries_at, base_of, NamesOne, NamesAlong};

use crate::carried::Carried;
use lent::part::Part;
use library::items::decoded::word;
use omf51::read_record::byte_at;
use segments::Symbol;
use tables::fill::{Fill, append};
use tables::links::{next_at, place_at};

// Whether a segment carries a public definition of its id with this offset.
fn carries(c: Carried, offset: usize) -> bool
    ensures { result ≡ carries_at c offset }
{
    match c {
        Carried::All => true,
        Carried::Inside(window) => window.contains(offset),
    }
}

// The offset of the symbol that a public definition with this offset becomes.
fn offset_in(c: Carried, offset: usize) -> usize
    ensures { result ≡ offset - base_of c }
{
    match c {
        Carried::Inside(window) if window.own => offset.saturating_sub(window.at),
        Carried::Inside(_) | Carried::All => offset,
    }
}

// Puts the symbol of a public definition, if the segment carries it. `place` is where the definition's offset stands in
// the library: the name's length follows three bytes later, and then the name.
pub fn append_public(library: &[u8], place: usize, c: Carried, m: &mut [u64], f: Fill) -> Fill
    requires { place < 2 ^ 32 }
    ensures { NamesOne library.now place c m.old f m.new result }
{
    let offset = word(library, place);
    if carries(c, offset) {
        let symbol = Symbol {
            name: Part {
                at: place + 4,
                len: usize::from(byte_at(library, place + 3)),
            },
            offset: offset_in(c, offset),
        };
        return append(m, f, symbol);
    }
    f
}

// Puts the symbols of all public definitions that are met from a link on. `publics` has the module's public definitions.
pub fn name_along(
    library: &[u8],
    link: u32,
    publics: &[u64],
    c: Carried,
    m: &mut [u64],
    before: Fill,
) -> Fill
    ensures { NamesAlong library.now link (next_of publics.now) (places_of publics.now) c m.old before m.new result }
{
    let mut last = 0;
    let mut here = link as usize;
    let mut f = before;
    while last < here {
        let place = place_at(publics, here - 1);
        f = append_public(library, place, c, m, f);
        last = here;
        here = next_at(publics, here - 1);
    }
    f
}
