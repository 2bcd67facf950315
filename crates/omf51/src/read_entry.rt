// The entries of bodies (definitions, fixups): where an entry ends, if all of it stands within its body.
ghost use Rattle.std.specs.Prelude.{◌≡◌, ◌+◌, ◌≤◌, ◌<◌, length, Ok};
ghost use Rattle.lent.specs.Parts.{byte_at, bytes_of};
ghost use Rattle.omf51.specs.Entry.{name_part, id_size, is_segment, is_public, name_offset, definition_at, fixup_at};
ghost use Rattle.omf51.specs.Ends.{end_of, entry_end};

use crate::Frame;
use crate::entry::Entries;
use crate::read_record::byte_at;
use lent::part::Part;

// The name whose length byte stands at a place, if all of it stands within the library: that many bytes behind it, lent as that
// very part of the library.
pub fn read_name<'a>(library: &'a [u8], at: usize) -> &'a [u8]
    requires { at + byte_at library.now at < length library.now }
    ensures { result.now ≡ bytes_of library.now (name_part library.now at) }
{
    let from = at + 1;
    let end = from + usize::from(byte_at(library, at));
    &library[from..end]
}

// Where the name whose length byte stands at a place is, if all of it stands within the library.
pub fn name_at(library: &[u8], at: usize) -> Part
    requires { at + byte_at library.now at < length library.now }
    ensures { result ≡ name_part library.now at }
{
    let bytes = read_name(library, at);
    Part {
        at: at + 1,
        len: bytes.len(),
    }
}

// Whether a definition record holds segments.
pub fn is_segment(f: Frame) -> bool
    ensures { result ≡ is_segment f }
{
    f.kind == 0x0e || f.kind == 0x0f
}

// Whether a definition record holds public names; a definition record that holds neither segments nor these holds externals.
pub fn is_public(f: Frame) -> bool
    ensures { result ≡ is_public f }
{
    f.kind == 0x16 || f.kind == 0x17
}

// How many bytes an id has: two in records of odd type, otherwise one.
pub fn id_size(f: Frame) -> usize
    ensures { (result ≡ id_size f) × (result ≤ 2) }
{
    1 + usize::from(f.kind % 2)
}

// How many bytes of a definition stand before its name.
pub fn name_offset(f: Frame) -> usize
    ensures { (result ≡ name_offset f) × (result ≤ 9) }
{
    let ids = id_size(f);
    if is_segment(f) {
        return ids + 7;
    }
    if is_public(f) {
        return ids + 4;
    }
    ids + 3
}

// Where the definition at a place ends, if it is whole. Its name comes last: a length byte, and that many bytes.
fn definition_end(library: &[u8], f: Frame, at: usize) -> Option<usize>
    ensures { Ok result ≡ end_of (definition_at library.now f at) }
{
    let end = f.end;
    if end < at {
        return None;
    }
    let before = name_offset(f);
    if end - at <= before {
        return None;
    }
    let name = at + before;
    let len = usize::from(byte_at(library, name));
    if end - name <= len {
        return None;
    }
    Some(name + 1 + len)
}

// Where the fixup at a place ends, if it is whole. A fixup of block 3 has one byte more.
fn fixup_end(library: &[u8], f: Frame, at: usize) -> Option<usize>
    ensures { Ok result ≡ end_of (fixup_at library.now f at) }
{
    let end = f.end;
    if end < at {
        return None;
    }
    let size = 4 + id_size(f) + 2;
    if end - at < size {
        return None;
    }
    if byte_at(library, at + 3) != 3 {
        return Some(at + size);
    }
    if end - at == size {
        return None;
    }
    Some(at + size + 1)
}

// Where the definition or fixup at a place ends, if it is whole.
pub fn entry_end(library: &[u8], what: Entries, f: Frame, at: usize) -> Option<usize>
    ensures { Ok result ≡ entry_end what library.now f at }
{
    match what {
        Entries::Definitions => definition_end(library, f, at),
        Entries::Fixups => fixup_end(library, f, at),
    }
}
