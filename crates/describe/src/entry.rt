// Descriptions of names, found as at51's `parse_description` does: in each list the first word that
// fits is taken, and never reconsidered.
ghost use Rattle.std.specs.Prelude.{◌≡◌, ◌+◌, ◌≤◌, length};
ghost use Rattle.describe.specs.Describe.{describe as definition, said_in, more, moving};
ghost use Rattle.describe.specs.Described.{said_by, sentence, sentence_in, unless_missing, Put, described};

use crate::words::Taken;
use crate::{NoRoom, Sentence, vocabulary};

// A word that may be missing at the front of `name`: a missing word says nothing, and the name stays.
fn perhaps<'a>(word: Option<Taken<'a>>, name: &'a [u8]) -> Taken<'a>
    ensures { said_by (Some result) ≡ unless_missing (said_by word.entry) name.now }
{
    word.unwrap_or(Taken {
        says: b"",
        rest: name,
    })
}

// The description of a load or a store, with whose words `name` begins: a move, a memory, and perhaps 0.
// The sign and the type come before them.
fn parse_moving(name: &[u8], sign: &'static [u8], kind: &'static [u8]) -> Option<Sentence>
    ensures { sentence_in result ≡ said_in (more sign.now (more kind.now (moving name.now))) }
{
    let verb = vocabulary::movement(name)?;
    let memory = vocabulary::memory(verb.rest)?;
    let into = perhaps(vocabulary::registers(memory.rest), memory.rest);
    Some(Sentence {
        sign,
        kind,
        verb: verb.says,
        memory: memory.says,
        into: into.says,
    })
}

// What the words of a name say: `?C?`, perhaps a sign, a type, and then an operation, or else a load or a store.
fn parse(name: &[u8]) -> Option<Sentence>
    ensures { sentence_in result ≡ definition name.now }
{
    let front = vocabulary::front(name)?;
    let sign = perhaps(vocabulary::sign(front.rest), front.rest);
    let kind = vocabulary::kind(sign.rest)?;
    let Some(verb) = vocabulary::operation(kind.rest) else {
        return parse_moving(kind.rest, sign.says, kind.says);
    };
    Some(Sentence {
        sign: sign.says,
        kind: kind.says,
        verb: verb.says,
        memory: b"",
        into: b"",
    })
}

// How many bytes a sentence takes.
fn size(s: Sentence) -> usize
    requires { length (sentence s) ≤ 88 }
    ensures { result ≡ length (sentence s) }
{
    s.sign.len() + s.kind.len() + s.verb.len() + s.memory.len() + s.into.len()
}

// Puts a text at a place of the buffer, and answers where it ends. It goes byte by byte: with `copy_from_slice` the archives for C
// need `memmove` from whoever links them.
pub fn put(out: &mut [u8], at: usize, text: &[u8]) -> usize
    requires { at + length text.now ≤ length out.old }
    ensures { Put out.old at text.now out.new result }
{
    for j in 0..text.len() {
        out[at + j] = text[j];
    }
    at + text.len()
}

// Writes a sentence into the buffer, and answers how many bytes it takes.
fn write(out: &mut [u8], s: Sentence) -> usize
    requires { length (sentence s) ≤ length out.old }
    ensures { Put out.old 0 (sentence s) out.new result }
{
    let a = put(out, 0, s.sign);
    let b = put(out, a, s.kind);
    let c = put(out, b, s.verb);
    let d = put(out, c, s.memory);
    put(out, d, s.into)
}

// Writes the description of a name into `out`, if the name has one and it fits, and answers how many bytes it has;
// otherwise `out` stays as it was.
pub fn describe(name: &[u8], out: &mut [u8]) -> Result<Option<usize>, NoRoom>
    ensures { (result, out.new) ≡ described name.now out.old }
{
    let Some(said) = parse(name) else {
        return Ok(None);
    };
    if out.len() < size(said) {
        return Err(NoRoom);
    }
    Ok(Some(write(out, said)))
}
