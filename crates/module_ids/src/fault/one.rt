// The refusal of one fixup, and of one content, by what its id leads to.
ghost use Rattle.std.specs.Prelude.{◌≡◌};
ghost use Rattle.module_ids.specs.fault.Faults.{is_code_mark, verdict_of, fixup_fault, content_fault};

use crate::{IdRow, Mark};
use lent::refusal::Refusal;
use omf51::{Content, Fixup};

// Whether the definition of a mark is code.
pub fn is_code(mark: Mark) -> bool
    ensures { result ≡ is_code_mark mark }
{
    matches!(mark, Mark::Code)
}

// Refusal 10, 11 or 13 of a fixup whose id has this row, if it has one; a fixup of block 3 is ignored.
#[tactic(auto, unfolding(crate::specs::fault::Faults::fixup_fault))]
pub fn fixup_fault(row: IdRow, f: Fixup) -> Result<(), Refusal>
    ensures { result ≡ verdict_of (fixup_fault row f) }
{
    if f.block == 3 {
        return Ok(());
    }
    if 7 < f.kind {
        return Err(Refusal::UnknownKind);
    }
    if 3 < f.block {
        return Err(Refusal::UnknownBlock);
    }
    if f.block == 1 && is_code(row.segment) && row.kept.is_none() {
        return Err(Refusal::NoKeptSegment);
    }
    Ok(())
}

// Refusal 12 of a content whose id has this row, if the content passes the size of the kept segment to which it goes.
#[tactic(auto, unfolding(crate::specs::fault::Faults::content_fault))]
pub fn content_fault(row: IdRow, c: Content) -> Result<(), Refusal>
    ensures { result ≡ verdict_of (content_fault row c) }
{
    let Some(kept) = row.kept else {
        return Ok(());
    };
    if c.offset <= kept.size && c.part.len <= kept.size - c.offset {
        return Ok(());
    }
    Err(Refusal::ContentPastSegment)
}
