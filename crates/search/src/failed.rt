// Whether a reference of a match fails at depth 1, and why: one step is looked at. Nothing is noted here, and nothing written.
ghost use Rattle.search.specs.Store.{seen, stored_in};
ghost use Rattle.search.specs.failed.Failures.{FailsBy};

use crate::targets::is_match;
use crate::{StoredSegments, View};
use image::fixup::Target;
use search_rules::{Failure, Why};
use segments::Goal;

// Whether the reference number k of a match holds, by its goal and target, or why it fails: it has no target, since its bytes
// pass the image's end or are withheld, or its segment does not match at the target.
pub fn failed_by(
    view: View,
    store: StoredSegments,
    k: usize,
    goal: Goal,
    target: Target,
) -> Result<(), Failure>
    ensures { FailsBy (seen view.entry) (stored_in store.entry) store.entry.n k goal target result }
{
    let why = match target {
        Target::PastEnd => Why::PastEnd,
        Target::Withheld => Why::Withheld,
        Target::At(t) => match goal {
            Goal::Segment(number) if !is_match(view, store, number, t) => Why::NoMatch,
            _ => return Ok(()),
        },
    };
    Err(Failure { number: k, why })
}
