// What a fixup leaves: a reference out of its content, or nothing.
ghost use Rattle.std.specs.Prelude.{◌≡◌, ◌+◌, ◌<◌, ◌^◌};
ghost use Rattle.module_ids.specs.reference.LeftReference.{code_named, place_in, goal_by, kind_known, leaves_by, left_by};

use crate::fault::one::{fixup_fault, is_code};
use crate::{IdRow, KeptSegment};
use image::fixup::Kind;
use omf51::Fixup;
use segments::{Goal, Reference, SegmentNumber};

// The kind of a number in the file, if it is one of the three that leave a reference.
fn kind_of(n: u8) -> Option<Kind>
    ensures { result ≡ kind_known n }
{
    match n {
        2 => Some(Kind::Relative),
        4 => Some(Kind::Word),
        5 => Some(Kind::Inblock),
        _ => None,
    }
}

// Whether the definition that a fixup names is code: the first segment of its id for block 1, the first external for
// block 2. A fixup of another block names nothing.
fn code_named(row: IdRow, f: Fixup) -> bool
    ensures { result ≡ code_named row f }
{
    match f.block {
        1 => is_code(row.segment),
        2 => is_code(row.external),
        _ => false,
    }
}

// The place of a kept segment in its module, 0 where there is none.
fn place_in(kept: Option<KeptSegment>) -> usize
    ensures { result ≡ place_in kept }
{
    match kept {
        None => 0,
        Some(KeptSegment { place, .. }) => place,
    }
}

// The goal of a fixup: block 1 leads to the first kept segment of the id, block 2 to the external's name. `number` is
// that of the module's first segment.
fn goal_by(row: IdRow, number: usize, f: Fixup) -> Goal
    requires { number + place_in row.kept < 2 ^ 64 }
    ensures { result ≡ goal_by row number f }
{
    if f.block == 1 {
        return Goal::Segment(SegmentNumber(number + place_in(row.kept)));
    }
    Goal::Name(row.name)
}

// What a fixup leaves if its id has this row: a reference if the fixup is not refused, names code, and is of one of
// three kinds. `number` is that of the module's first segment; `base` is added to the fixup's location.
#[tactic(auto, unfolding(crate::specs::reference::LeftReference::leaves_by))]
pub fn reference_of(row: IdRow, number: usize, base: usize, f: Fixup) -> Option<Reference>
    requires { (number + place_in row.kept < 2 ^ 64) × (base + f.location < 2 ^ 64) }
    ensures { left_by result ≡ leaves_by row number base f }
{
    if fixup_fault(row, f).is_err() || !code_named(row, f) {
        return None;
    }
    Some(Reference {
        place: base + f.location,
        kind: kind_of(f.kind)?,
        offset: f.offset,
        goal: goal_by(row, number, f),
    })
}
