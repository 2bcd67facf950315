// What the editions read differently: the record at a place, how much of a body's entries is asked for, and whether bytes may be
// left over. An edition is a type here, so that what is built on these is compiled once for each and asks for none while it runs.
ghost use Rattle.std.specs.Prelude.{◌≡◌, ◌≤◌, length, Some, Ok, if◌then◌else◌};
ghost use Rattle.omf51.specs.Record.{expected_by, leaves_over as over};
ghost use Rattle.omf51.specs.Expected.{allows as allowed_types, frame_read};
ghost use Rattle.omf51.specs.Ends.{rest_end};
ghost use Rattle.omf51.specs.declared.Edition.{Edition};
ghost use Rattle.omf51.specs.declared.entry.Entries.TheVariants.{Definitions, Fixups};
ghost use Rattle.omf51.specs.declared.Edition.TheVariants.{One, Two};
ghost use Rattle.library.specs.Passes.{record_end_by};

use crate::repeat::{allowed_for, holds};
use lent::refusal::Refusal;
use omf51::by_edition::{leaves_over, record_by};
use omf51::entry::Entries;
use omf51::read_entry::entry_end;
use omf51::read_record::record_at;
use omf51::types::Allowed;
use omf51::{Edition, Frame};

// An edition by which records are read.
pub trait ReadBy {
    // Which edition it is.
    ghost edition: { Edition };

    // The record at a place, if its type is allowed there.
    fn record(library: &[u8], what: Allowed, at: usize) -> Result<Option<Frame>, Refusal>
        ensures { frame_read result ≡ expected_by edition library.now (allowed_types what) at };

    // Where the record at a place ends: a record of such entries, or a record that is skipped among them.
    fn record_end(library: &[u8], what: Entries, at: usize) -> Result<Option<usize>, Refusal>
        ensures { result ≡ record_end_by edition what library.now at };

    // Whether bytes are left over behind what was read up to `left`, which should have gone up to `end`.
    fn leaves_over(left: usize, end: usize) -> bool
        ensures { result ≡ over edition left end };
}

// Edition 1: the first entry of a record is whole, whatever its others are, and bytes may be left over.
pub struct EditionOne;

// Edition 2: each record sums to 0 (14), and its entries use up its body (15).
pub struct EditionTwo;

// Where the entries of a body end from a place on: at its end, or before the first that is not whole.
fn rest_end(library: &[u8], what: Entries, f: Frame, from: usize) -> usize
    requires { f.end ≤ length library.now }
    ensures { Ok (Some result) ≡ rest_end what library.now f from }
{
    let mut at = from;
    while at < f.end {
        let Some(next) = entry_end(library, what, f, at) else {
            return at;
        };
        at = next;
    }
    at
}

impl ReadBy for EditionOne {
    ghost edition = { One };

    fn record(library: &[u8], what: Allowed, at: usize) -> Result<Option<Frame>, Refusal> {
        record_at(library, what, at)
    }

    fn record_end(library: &[u8], what: Entries, at: usize) -> Result<Option<usize>, Refusal> {
        let Some(f) = record_at(library, allowed_for(what), at)? else {
            return Ok(None);
        };
        if holds(what, f.kind) && entry_end(library, what, f, f.body).is_none() {
            return Ok(None);
        }
        Ok(Some(f.end + 1))
    }

    fn leaves_over(left: usize, end: usize) -> bool {
        leaves_over(Edition::One, left, end)
    }
}

// The entries that a constant parameter asks for.
fn entries_of(fixups: bool) -> Entries
    ensures { result ≡ if fixups then Fixups else Definitions }
{
    if fixups {
        Entries::Fixups
    } else {
        Entries::Definitions
    }
}

// Where the record at a place ends in edition 2: its entries use it up, or the file is refused (15). It is compiled once for
// definitions and once for fixups: with one for both, a run in edition 2 takes 0.7 % more instructions on `goal`.
fn used_record<const FIXUPS: bool>(library: &[u8], at: usize) -> Result<Option<usize>, Refusal>
    ensures { result ≡ record_end_by Two (if FIXUPS then Fixups else Definitions) library.now at }
{
    let what = entries_of(FIXUPS);
    let Some(f) = record_by(library, Edition::Two, allowed_for(what), at)? else {
        return Ok(None);
    };
    if holds(what, f.kind) {
        let Some(first) = entry_end(library, what, f, f.body) else {
            return Ok(None);
        };
        if leaves_over(Edition::Two, rest_end(library, what, f, first), f.end) {
            return Err(Refusal::LeftOver);
        }
    }
    Ok(Some(f.end + 1))
}

impl ReadBy for EditionTwo {
    ghost edition = { Two };

    fn record(library: &[u8], what: Allowed, at: usize) -> Result<Option<Frame>, Refusal> {
        record_by(library, Edition::Two, what, at)
    }

    fn record_end(library: &[u8], what: Entries, at: usize) -> Result<Option<usize>, Refusal> {
        match what {
            Entries::Definitions => used_record::<false>(library, at),
            Entries::Fixups => used_record::<true>(library, at),
        }
    }

    fn leaves_over(left: usize, end: usize) -> bool {
        leaves_over(Edition::Two, left, end)
    }
}
