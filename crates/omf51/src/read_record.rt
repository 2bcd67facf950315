// One record: whether its type is allowed at its place, and where its body stands. Only this file indexes the library;
// all other code takes single bytes by `byte_at` and `word_at`, and names as slices.
ghost use Rattle.std.specs.Prelude.{◌≡◌, ◌<◌};
ghost use Rattle.lent.specs.Parts.{byte_at, word_at};
ghost use Rattle.omf51.specs.Record.{frame_at, expected};
ghost use Rattle.omf51.specs.Expected.{allows as allowed_types, frame_read};

use crate::Frame;
use crate::allowed_types::allows;
use crate::types::Allowed;
use lent::refusal::Refusal;

// The byte of the library at a place, 0 past the end.
pub fn byte_at(library: &[u8], at: usize) -> u8
    ensures { result ≡ byte_at library.now at }
{
    library.get(at).copied().unwrap_or(0)
}

// The number of the two bytes at a place, low byte first.
pub fn word_at(library: &[u8], at: usize) -> u16
    ensures { result ≡ word_at library.now at }
{
    let Some(low) = library.get(at) else {
        return 0;
    };
    u16::from(*low) + 256 * u16::from(byte_at(library, at + 1))
}

// The record at a place, whatever its type: a type byte, two bytes of length, a body, a checksum byte, which is not examined.
fn frame_at(library: &[u8], at: usize) -> Result<Option<Frame>, Refusal>
    ensures { frame_read result ≡ frame_at library.now at }
{
    if library.len() < 3 {
        return Ok(None);
    }
    if library.len() - 3 < at {
        return Ok(None);
    }
    let len = usize::from(word_at(library, at + 1));
    let room = library.len() - (at + 2);
    if len == 0 {
        return Err(Refusal::LengthZero);
    }
    if room < len {
        return Err(Refusal::BodyPastEnd);
    }
    if room == len {
        return Ok(None);
    }
    Ok(Some(Frame {
        kind: library[at],
        body: at + 3,
        end: at + 2 + len,
    }))
}

// The record at a place, if its type is allowed there. The type comes first, so that a record
// of another type never gives a refusal.
#[tactic(auto, unfolding(crate::specs::Record::expected))]
pub fn record_at(library: &[u8], what: Allowed, at: usize) -> Result<Option<Frame>, Refusal>
    ensures { frame_read result ≡ expected library.now (allowed_types what) at }
{
    if allows(what, byte_at(library, at)) {
        frame_at(library, at)
    } else {
        Ok(None)
    }
}
