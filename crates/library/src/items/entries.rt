// From entry to entry, through the records that hold definitions or fixups.
ghost use Rattle.std.specs.Prelude.{◌≡◌, ◌+◌, ◌<◌, ◌≤◌, length, Ok};
ghost use Rattle.omf51.specs.declared.entry.Entries.TheVariants.{Definitions};
ghost use Rattle.library.specs.items.Walk.{entry_in, entered_at, next_entry, start_at};
ghost use Rattle.library.specs.items.Items.{past};

use crate::edition::{EditionOne, ReadBy};
use crate::items::{Cursor, NextEntry};
use crate::repeat::holds;
use omf51::Frame;
use omf51::entry::Entries;
use omf51::read_entry::entry_end;
use omf51::read_record::byte_at;

// The cursor before the first record at a place: an empty body, with that record as the next.
pub fn start(at: usize) -> Cursor
    ensures { result ≡ start_at at }
{
    Cursor {
        frame: Frame {
            kind: 0,
            body: 0,
            end: 0,
        },
        at: 0,
        next: at,
    }
}

// The cursor at a place of its body. It is put together of its parts, so that no unused bytes are copied.
pub fn moved(c: Cursor, at: usize) -> Cursor
    ensures { result ≡ past c at }
{
    let frame = c.frame;
    Cursor {
        frame: Frame {
            kind: frame.kind,
            body: frame.body,
            end: frame.end,
        },
        at,
        next: c.next,
    }
}

// Where the entry at the cursor ends, if it is whole; a body that passes the library's end has no entry. Most often a walk stands
// at its body's end, where none begins: that is asked here, so that the entry's kind is not looked at.
fn entry_in(library: &[u8], what: Entries, c: Cursor) -> Option<usize>
    ensures { Ok result ≡ entry_in what library.now c }
{
    let frame = c.frame;
    if library.len() < frame.end {
        return None;
    }
    if frame.end <= c.at {
        return None;
    }
    entry_end(library, what, frame, c.at)
}

// The cursor in the body of the record from `at` up to `next`; if the record is skipped, it stands at the body's end.
fn entered(library: &[u8], what: Entries, at: usize, next: usize) -> Cursor
    requires { (at + 3 < next) × (next ≤ length library.now) }
    ensures { result ≡ entered_at what library.now at next }
{
    let kind = byte_at(library, at);
    let body = at + 3;
    let end = next - 1;
    if holds(what, kind) {
        return Cursor {
            frame: Frame { kind, body, end },
            at: body,
            next,
        };
    }
    Cursor {
        frame: Frame { kind, body, end },
        at: end,
        next,
    }
}

// The next entry from the cursor on: in the cursor's body, or else in the records that follow. It is inlined, since its callers
// clear the place for its answer each time otherwise: without that a run on `goal` takes 2.6 % more instructions.
#[inline(always)]
pub fn next_entry(library: &[u8], what: Entries, from: Cursor) -> Option<NextEntry>
    ensures { result ≡ next_entry what library.now from }
{
    let mut c = from;
    loop {
        if let Some(end) = entry_in(library, what, c) {
            return Some(NextEntry {
                here: moved(c, c.at),
                end,
            });
        }
        let at = c.next;
        let Ok(Some(next)) = EditionOne::record_end(library, what, at) else {
            return None;
        };
        c = entered(library, what, at, next);
    }
}

// The next definition from the cursor on. It mostly stands in the cursor's body or in the record that follows, so that these are
// tried before the loop over further records (`next_entry`).
pub fn next_in_definitions(library: &[u8], from: Cursor) -> Option<NextEntry>
    ensures { result ≡ next_entry Definitions library.now from }
{
    if let Some(end) = entry_in(library, Entries::Definitions, from) {
        return Some(NextEntry {
            here: moved(from, from.at),
            end,
        });
    }
    let at = from.next;
    let Ok(Some(next)) = EditionOne::record_end(library, Entries::Definitions, at) else {
        return None;
    };
    let c = entered(library, Entries::Definitions, at, next);
    if let Some(end) = entry_in(library, Entries::Definitions, c) {
        return Some(NextEntry {
            here: moved(c, c.at),
            end,
        });
    }
    next_entry(library, Entries::Definitions, c)
}
