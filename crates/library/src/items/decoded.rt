// What an entry of a module says, and the steps from definition to definition and from fixup to fixup.
ghost use Rattle.std.specs.Prelude.{◌≡◌, ◌+◌, ◌<◌, length};
ghost use Rattle.lent.specs.Parts.{byte_at, word_at};
ghost use Rattle.omf51.specs.Entry.{id_at, name_offset};
ghost use Rattle.library.specs.items.Items.{definition_here, fixup_here, next_definition, next_fixup};

use crate::items::entries::{moved, next_entry, next_in_definitions};
use crate::items::{Cursor, NextDefinition, NextFixup};
use omf51::entry::Entries;
use omf51::read_entry::{id_size, is_public, is_segment, name_at, name_offset};
use omf51::read_record::{byte_at, word_at};
use omf51::{Definition, Fixup, Frame, ModuleId, segment_size};

// The number of the two bytes at a place, low byte first, as a size.
pub fn word(library: &[u8], at: usize) -> usize
    ensures { result ≡ word_at library.now at }
{
    usize::from(word_at(library, at))
}

// The id at a place: of two bytes in records of odd type, otherwise of one.
pub fn id_at(library: &[u8], f: Frame, at: usize) -> ModuleId
    ensures { result ≡ id_at library.now f at }
{
    if f.kind % 2 == 1 {
        return ModuleId(word_at(library, at));
    }
    ModuleId(u16::from(byte_at(library, at)))
}

// The definition at a place where a whole definition stands.
fn definition_of(library: &[u8], f: Frame, at: usize) -> Definition
    requires { at + name_offset f + byte_at library.now (at + name_offset f) < length library.now }
    ensures { result ≡ definition_here library.now f at }
{
    let name = name_at(library, at + name_offset(f));
    let w = at + id_size(f);
    if is_segment(f) {
        let info = byte_at(library, w);
        return Definition::Segment {
            id: id_at(library, f, at),
            info,
            relocation: byte_at(library, w + 1),
            size: segment_size(info, word_at(library, w + 5)),
            name,
        };
    }
    if is_public(f) {
        return Definition::Public {
            id: id_at(library, f, at),
            offset: word(library, w + 1),
            name,
        };
    }
    Definition::External {
        id: id_at(library, f, at + 1),
        info: byte_at(library, w + 1),
        name,
    }
}

// The fixup at a place where a whole fixup stands.
fn fixup_of(library: &[u8], f: Frame, at: usize) -> Fixup
    requires { at + 6 < length library.now }
    ensures { result ≡ fixup_here library.now f at }
{
    Fixup {
        location: word(library, at),
        kind: byte_at(library, at + 2),
        block: byte_at(library, at + 3),
        id: id_at(library, f, at + 4),
        offset: word(library, at + 4 + id_size(f)),
    }
}

// The next definition of a module from a cursor on, and the cursor behind it.
pub fn next_definition(library: &[u8], from: Cursor) -> Option<NextDefinition>
    ensures { result ≡ next_definition library.now from }
{
    let entry = next_in_definitions(library, from)?;
    Some(NextDefinition {
        definition: definition_of(library, entry.here.frame, entry.here.at),
        rest: moved(entry.here, entry.end),
    })
}

// The next fixup of a content from a cursor on, and the cursor behind it.
pub fn next_fixup(library: &[u8], from: Cursor) -> Option<NextFixup>
    ensures { result ≡ next_fixup library.now from }
{
    let entry = next_entry(library, Entries::Fixups, from)?;
    Some(NextFixup {
        fixup: fixup_of(library, entry.here.frame, entry.here.at),
        rest: moved(entry.here, entry.end),
    })
}
