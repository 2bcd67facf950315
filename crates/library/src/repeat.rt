// Going over records without keeping what they say: where each record of entries, each content and each repetition ends, in
// either edition. What goes over modules again calls these by edition 1, whatever edition they were read in.
ghost use Rattle.std.specs.Prelude.{◌≡◌};
ghost use Rattle.omf51.specs.Module.{section_by, sections_by};
ghost use Rattle.omf51.specs.Ends.{end_of, reached};
ghost use Rattle.library.specs.Passes.{allowed_for, holds as holds_type, record_end_by, all_end_by, sections_end_by};

use crate::edition::ReadBy;
use lent::refusal::Refusal;
use omf51::allowed_types::{defines, fills};
use omf51::entry::Entries;
use omf51::read_entry::id_size;
use omf51::read_record::byte_at;
use omf51::types::Allowed;

// What may stand among the records that hold such entries.
pub fn allowed_for(what: Entries) -> Allowed
    ensures { result ≡ allowed_for what }
{
    match what {
        Entries::Definitions => Allowed::Definitions,
        Entries::Fixups => Allowed::Fixups,
    }
}

// Whether a record of a type holds such entries; a record that holds none is skipped.
pub fn holds(what: Entries, kind: u8) -> bool
    ensures { result ≡ holds_type what kind }
{
    match what {
        Entries::Definitions => defines(kind),
        Entries::Fixups => true,
    }
}

// Where all records of such entries from a place on end, one after another.
pub fn skip<E: ReadBy>(library: &[u8], what: Entries, from: usize) -> Result<usize, Refusal>
    ensures { reached result ≡ all_end_by E.edition what library.now from }
{
    let mut at = from;
    while let Some(next) = E::record_end(library, what, at)? {
        at = next;
    }
    Ok(at)
}

// Where the content at a place and the fixups that follow it at once end; the content's body has an id and an offset at least.
fn content_end<E: ReadBy>(library: &[u8], at: usize) -> Result<Option<usize>, Refusal>
    ensures { result ≡ end_of (section_by E.edition library.now at) }
{
    let Some(f) = E::record(library, Allowed::Contents, at)? else {
        return Ok(None);
    };
    let body = f.body;
    let end = f.end;
    if end - body < id_size(f) + 2 {
        return Ok(None);
    }
    Ok(Some(skip::<E>(library, Entries::Fixups, end + 1)?))
}

// Where the content at a place with its fixups ends, or the record that is skipped among contents.
pub fn section_end<E: ReadBy>(library: &[u8], at: usize) -> Result<Option<usize>, Refusal>
    ensures { result ≡ end_of (sections_by E.edition library.now at) }
{
    if fills(byte_at(library, at)) {
        return content_end::<E>(library, at);
    }
    let Some(f) = E::record(library, Allowed::Idle, at)? else {
        return Ok(None);
    };
    Ok(Some(f.end + 1))
}

// Where all contents of a module, with their fixups, end, one after another.
pub fn skip_sections<E: ReadBy>(library: &[u8], from: usize) -> Result<usize, Refusal>
    ensures { reached result ≡ sections_end_by E.edition library.now from }
{
    let mut at = from;
    while let Some(next) = section_end::<E>(library, at)? {
        at = next;
    }
    Ok(at)
}
