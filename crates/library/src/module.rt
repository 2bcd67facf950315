// The module at a place in either edition: where its parts stand, if it is whole; and how many stand in a row. What goes over
// modules again calls `module_at` by edition 1, whatever edition they were read in.
ghost use Rattle.std.specs.Prelude.{◌≡◌, ◌≤◌};
ghost use Rattle.omf51.specs.Reader.{many};
ghost use Rattle.omf51.specs.Record.{record_by};
ghost use Rattle.omf51.specs.Module.{module_by};
ghost use Rattle.omf51.specs.Entry.{name_with};
ghost use Rattle.omf51.specs.Expected.{one_type};
ghost use Rattle.omf51.specs.Ends.{name_read};
ghost use Rattle.library.specs.Passes.{places_read, places_by, rest_places, last_places};
ghost use Rattle.library.specs.Reading.{count_of};

use crate::edition::ReadBy;
use crate::repeat::{skip, skip_sections};
use crate::{Counted, Places};
use lent::names::same_name;
use lent::part::Part;
use lent::refusal::Refusal;
use omf51::entry::{Entries, Named};
use omf51::read_record::byte_at;
use omf51::types::Allowed;

// The header or end record at a place, by its type `kind`: its body has a name and `more` bytes behind it; bytes behind these are
// left over.
pub fn named_at<E: ReadBy>(
    library: &[u8],
    kind: u8,
    more: u8,
    at: usize,
) -> Result<Option<Named>, Refusal>
    ensures { name_read result ≡ record_by E.edition library.now (one_type kind) (name_with more library.now) at }
{
    let Some(f) = E::record(library, Allowed::One(kind), at)? else {
        return Ok(None);
    };
    let body = f.body;
    let end = f.end;
    let len = usize::from(byte_at(library, body));
    let need = 1 + len + usize::from(more);
    if end - body < need {
        return Ok(None);
    }
    if E::leaves_over(body + need, end) {
        return Err(Refusal::LeftOver);
    }
    Ok(Some(Named {
        name: Part { at: body + 1, len },
        next: end + 1,
    }))
}

// The end record of a module at a place: it has the header's name again, or the file is refused (8).
fn last_places<E: ReadBy>(
    library: &[u8],
    name: Part,
    definitions: usize,
    contents: usize,
    at: usize,
) -> Result<Option<Places>, Refusal>
    ensures { places_read result ≡ last_places E.edition library.now name definitions contents at }
{
    let Some(last) = named_at::<E>(library, 0x04, 4, at)? else {
        return Ok(None);
    };
    if !same_name(library, name, last.name) {
        return Err(Refusal::NamesDiffer);
    }
    Ok(Some(Places {
        definitions,
        contents,
        next: last.next,
    }))
}

// The rest of a module behind its header: definitions, contents, the end record.
fn rest_places<E: ReadBy>(
    library: &[u8],
    name: Part,
    definitions: usize,
) -> Result<Option<Places>, Refusal>
    ensures { places_read result ≡ rest_places E.edition library.now name definitions }
{
    let contents = skip::<E>(library, Entries::Definitions, definitions)?;
    let at = skip_sections::<E>(library, contents)?;
    last_places::<E>(library, name, definitions, contents, at)
}

// Where the parts of the module at a place stand, or why there is none.
pub fn module_at<E: ReadBy>(library: &[u8], at: usize) -> Result<Option<Places>, Refusal>
    ensures { places_read result ≡ places_by E.edition library.now at }
{
    let Some(head) = named_at::<E>(library, 0x02, 2, at)? else {
        return Ok(None);
    };
    rest_places::<E>(library, head.name, head.next)
}

// Counts the modules from a place on, as many as can be read.
pub fn count<E: ReadBy>(library: &[u8], from: usize) -> Result<Counted, Refusal>
    ensures { result ≡ count_of (many library.now (module_by E.edition library.now) from) }
{
    let mut at = from;
    let mut count = 0;
    while let Some(places) = module_at::<E>(library, at)? {
        at = places.next;
        count += 1;
    }
    Ok(Counted { count, next: at })
}
