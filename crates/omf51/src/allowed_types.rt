// The types of records: which types are known, and which are allowed at a place of the file.
#![tactic(auto, using(std::proofs::lemmas::Bool::Decides::nat_tests), unfolding(lent::specs::Lists::any))]

ghost use Rattle.std.specs.Prelude.{◌≡◌};
ghost use Rattle.omf51.specs.Module.{is_known, defines as defines_type, fills as fills_type, fixes as fixes_type, rests as rests_type, is_idle};
ghost use Rattle.omf51.specs.Expected.{allows as allowed_types};

use crate::types::Allowed;

// Whether a type is one of the twenty known types: the thirteen even ones of the Intel paper, and seven odd ones, which are
// the same records with ids of two bytes. A record of an unknown type is skipped among definitions and among contents.
fn is_known(kind: u8) -> bool
    ensures { result ≡ is_known kind }
{
    let even = matches!(
        kind,
        0x02 | 0x04 | 0x06 | 0x08 | 0x0e | 0x10 | 0x12 | 0x16 | 0x18 | 0x26 | 0x28 | 0x2a | 0x2c
    );
    even || matches!(kind, 0x07 | 0x09 | 0x0f | 0x11 | 0x13 | 0x17 | 0x19)
}

// Whether records of a type hold definitions: segments, public names, externals, with ids of one byte or of two.
pub fn defines(kind: u8) -> bool
    ensures { result ≡ defines_type kind }
{
    matches!(kind, 0x0e | 0x16 | 0x18 | 0x0f | 0x17 | 0x19)
}

// Whether records of a type are contents.
pub fn fills(kind: u8) -> bool
    ensures { result ≡ fills_type kind }
{
    matches!(kind, 0x06 | 0x07)
}

// Whether records of a type hold fixups.
fn fixes(kind: u8) -> bool
    ensures { result ≡ fixes_type kind }
{
    matches!(kind, 0x08 | 0x09)
}

// Whether records of a known type are skipped among contents.
fn rests(kind: u8) -> bool
    ensures { result ≡ rests_type kind }
{
    matches!(kind, 0x10 | 0x12 | 0x13)
}

// Whether records of a type are skipped among contents: those of unknown types, and three of the known ones.
fn idles(kind: u8) -> bool
    ensures { result ≡ is_idle kind }
{
    !is_known(kind) || rests(kind)
}

// Whether a record of a type may stand at a place where `what` is allowed.
pub fn allows(what: Allowed, kind: u8) -> bool
    ensures { result ≡ allowed_types what kind }
{
    match what {
        Allowed::One(one) => one == kind,
        Allowed::Definitions => defines(kind) || !is_known(kind),
        Allowed::Contents => fills(kind),
        Allowed::Fixups => fixes(kind),
        Allowed::Idle => idles(kind),
    }
}
