// A refusal in words, with its number: one line on standard error.
use crate::message::{say, say_number};
use lent::refusal::Refusal;
use run::Counts;
use system::standard_error::StandardError;

// Document 01's words, and those of the later requests. How much is lent is the program's affair.
fn words(r: Refusal) -> &'static str {
    match r {
        Refusal::RuleSet => "rule set not 0 or 1",
        Refusal::OtherEdition => "edition not 1 or 2",
        Refusal::TooDeep => "references are checked to depth 4 at most",
        Refusal::ImageTooLong => "image too long (more than 65536 bytes)",
        Refusal::NotBanked => "file not 32 KiB and 1 to 16 banks of 32 KiB",
        Refusal::LibraryTooLong => "library too long (more than 65536 bytes)",
        Refusal::StretchPastEnd => "withheld start + length passes the image's end",
        Refusal::TooManyStretches => "more than 16 stretches are withheld",
        Refusal::NoModule =>
            "no first module can be read, or a 2Ch library lacks its 28h, 26h, 2Ah records in that order after its modules",
        Refusal::BodyPastEnd =>
            "the body (length - 1 bytes) of a record expected here passes the file's end",
        Refusal::LengthZero => "a record expected here has length 0",
        Refusal::NamesDiffer => "a whole module's header and end names differ",
        Refusal::WrongSum => "a record's bytes do not sum to 0 (--edition 1 does not look at sums)",
        Refusal::LeftOver =>
            "bytes are left over behind a record's entries, or behind the file's last record (--edition 1 passes them over)",
        Refusal::TooFewRows =>
            "a stage's definition yields more rows or pattern bytes than were lent for it: image and library need more than the program lends, which is ",
        Refusal::UnknownKind => "a fixup kind above 7, block not 3",
        Refusal::UnknownBlock => "a fixup block above 3",
        Refusal::ContentPastSegment => "content end passes the size of the kept segment it goes to",
        Refusal::NoKeptSegment =>
            "a block-1 fixup names a code segment and no kept segment has its id",
    }
}

fn count(rt: &impl StandardError, n: usize, of: &[u8]) {
    say_number(rt, n as u64);
    say(rt, of);
}

fn counts(rt: &impl StandardError, lent: Counts) {
    count(rt, lent.segments, b" segments, ");
    count(rt, lent.references, b" references, ");
    count(rt, lent.symbols, b" symbols, ");
    count(rt, lent.pattern, b" pattern bytes, ");
    count(rt, lent.placed, b" symbols placed, ");
    count(rt, lent.noted, b" names noted, ");
    count(rt, lent.lines, b" lines");
}

// Says why there is no list; `lent` is how many rows of each list, and how many pattern bytes, the program lends.
pub fn say_refused(rt: &impl StandardError, r: Refusal, lent: Counts) {
    say(rt, b"refused (");
    say_number(rt, u64::from(u8::from(r)));
    say(rt, b"): ");
    say(rt, words(r).as_bytes());
    if let Refusal::TooFewRows = r {
        counts(rt, lent);
    }
    say(rt, b"\n");
}
