// The whole file: bare modules, or a library that begins with a 2Ch record.
ghost use Rattle.std.specs.Prelude.{◌≡◌};
ghost use Rattle.omf51.specs.Reader.{many};
ghost use Rattle.omf51.specs.Module.{module_by};
ghost use Rattle.omf51.specs.File.{modules_by};
ghost use Rattle.library.specs.Reading.{count_of, reading, type_end};
ghost use Rattle.library.specs.ReadingLaws.{closing_end, used_reading, library_reading};

use crate::edition::{EditionOne, EditionTwo};
use crate::module::count;
use crate::{Counted, Reading};
use lent::refusal::Refusal;
use omf51::Edition;
use omf51::by_edition::{leaves_over, record_by};
use omf51::read_record::byte_at;
use omf51::types::Allowed;

// Counts the modules from a place on, as many as can be read in an edition. The edition is asked for once, and not at each
// module.
fn count_by(library: &[u8], edition: Edition, from: usize) -> Result<Counted, Refusal>
    ensures { result ≡ count_of (many library.now (module_by edition library.now) from) }
{
    match edition {
        Edition::One => count::<EditionOne>(library, from),
        Edition::Two => count::<EditionTwo>(library, from),
    }
}

// Counts the modules from a place on, of which there has to be at least one: without one the file is refused (5).
fn modules_at(library: &[u8], edition: Edition, from: usize) -> Result<Counted, Refusal>
    ensures { result ≡ count_of (modules_by edition library.now from) }
{
    let modules = count_by(library, edition, from)?;
    if modules.count == 0 {
        return Err(Refusal::NoModule);
    }
    Ok(modules)
}

// Where the record of one type at a place ends; its body is not looked at.
fn type_end(library: &[u8], edition: Edition, kind: u8, at: usize) -> Result<Option<usize>, Refusal>
    ensures { result ≡ type_end edition library.now kind at }
{
    let Some(f) = record_by(library, edition, Allowed::One(kind), at)? else {
        return Ok(None);
    };
    Ok(Some(f.end + 1))
}

// Where the closing records of a library end: 28h, 26h and 2Ah, in that order.
fn closing_end(library: &[u8], edition: Edition, at: usize) -> Result<Option<usize>, Refusal>
    ensures { result ≡ closing_end edition library.now at }
{
    let Some(second) = type_end(library, edition, 0x28, at)? else {
        return Ok(None);
    };
    let Some(third) = type_end(library, edition, 0x26, second)? else {
        return Ok(None);
    };
    type_end(library, edition, 0x2a, third)
}

// What reading comes to where it ended well: in edition 2 the file has to be used up (15).
fn used_reading(
    library: &[u8],
    edition: Edition,
    first: usize,
    count: usize,
    end: usize,
) -> Result<Reading, Refusal>
    ensures { result ≡ used_reading edition library.now first count end }
{
    if leaves_over(edition, end, library.len()) {
        return Err(Refusal::LeftOver);
    }
    Ok(Reading { first, count })
}

// The modules of a library, from the place `first` after its 2Ch record on; its closing records have to follow them.
fn library_from(library: &[u8], edition: Edition, first: usize) -> Result<Reading, Refusal>
    ensures { result ≡ library_reading edition library.now first }
{
    let modules = modules_at(library, edition, first)?;
    let Some(end) = closing_end(library, edition, modules.next)? else {
        return Err(Refusal::NoModule);
    };
    used_reading(library, edition, first, modules.count, end)
}

// Reads the file in an edition: where its modules stand and how many there are, or the first of refusals 5 to 8, 14 and 15 that is met.
pub fn read(library: &[u8], edition: Edition) -> Result<Reading, Refusal>
    ensures { result ≡ reading edition library.now }
{
    if byte_at(library, 0) == 0x2c {
        let Some(f) = record_by(library, edition, Allowed::One(0x2c), 0)? else {
            return Err(Refusal::NoModule);
        };
        return library_from(library, edition, f.end + 1);
    }
    let modules = modules_at(library, edition, 0)?;
    used_reading(library, edition, 0, modules.count, modules.next)
}
