// Whether a match holds to a depth: a check that goes from a match to the matches to which its references lead, with a depth
// that falls at each step. What was answered is remembered in a table, `told`, which may hold any answers that are true.
ghost use Rattle.std.specs.Prelude.{◌≤◌};
ghost use Rattle.search.specs.Store.{seen, stored_in};
ghost use Rattle.search.specs.depth.Depths.{Told, HoldsSo, FailsAt, FailsAmong, Carries, FailsTo, KeepsOut};

use crate::failed::failed_by;
use crate::targets::{is_match, target_of};
use crate::told::{answer_at, recall, remember};
use crate::{StoredSegments, View};
use image::fixup::{Rules, Target};
use lent::part::Part;
use search_rules::{Failure, Why};
use segments::recalled::lies_within;
use segments::rows::{REFERENCE_WIDTH, reference_at, segment_at};
use segments::{Goal, SegmentNumber};
use tables::zeros::{FEW_PLACES, zeros};

// Whether the match of the segment `number` at a place holds to a depth. A number that is not below n has no segment, and
// so no reference that could fail. The other parameters are those of `failed_among`.
#[cycle(failed_among_failed_at_holds)]
fn holds(
    view: View,
    rules: Rules,
    depth: u64,
    number: SegmentNumber,
    at: u64,
    store: StoredSegments,
    told: &mut [u16],
) -> bool
    requires { Told (seen view) rules (stored_in store) store.n told.old }
    ensures { HoldsSo (seen view.entry) rules (stored_in store.entry) store.entry.n depth number at result
        × Told (seen view.entry) rules (stored_in store.entry) store.entry.n told.new }
{
    if depth == 0 || store.n <= number.0 {
        return true;
    }
    if let Some(answer) = recall(answer_at(told, at), number.0, depth) {
        return answer;
    }
    let row = segment_at(store.segments, number.0);
    let answer = failed_among(
        view,
        rules,
        depth - 1,
        at as usize,
        store,
        row.references,
        told,
    )
    .is_ok();
    remember(told, number.0, at, depth, answer);
    answer
}

// Whether the reference number k of a match holds at depth `below` + 1, by its goal and target, or why it fails. The other
// parameters are those of `failed_among`.
#[cycle(failed_among_failed_at_holds)]
fn failed_at(
    view: View,
    rules: Rules,
    below: u64,
    store: StoredSegments,
    k: usize,
    goal: Goal,
    target: Target,
    told: &mut [u16],
) -> Result<(), Failure>
    requires { Told (seen view) rules (stored_in store) store.n told.old }
    ensures { FailsAt (seen view.entry) rules (stored_in store.entry) store.entry.n below k goal target result
        × Told (seen view.entry) rules (stored_in store.entry) store.entry.n told.new }
{
    let Target::At(t) = target else {
        return failed_by(view, store, k, goal, target);
    };
    let Goal::Segment(number) = goal else {
        return Ok(());
    };
    let why = if !is_match(view, store, number, t) {
        Why::NoMatch
    } else if holds(view, rules, below, number, t, store, told) {
        return Ok(());
    } else {
        Why::NotHeld
    };
    Err(Failure { number: k, why })
}

// The first reference in a part of the rows that fails at depth `below` + 1, for a match at `position`, and why. The view
// gives the targets; the collection tells what matches there and what that refers to.
#[cycle(failed_among_failed_at_holds)]
pub fn failed_among(
    view: View,
    rules: Rules,
    below: u64,
    position: usize,
    store: StoredSegments,
    part: Part,
    told: &mut [u16],
) -> Result<(), Failure>
    requires { Told (seen view) rules (stored_in store) store.n told.old }
    ensures { FailsAmong (seen view.entry) rules (stored_in store.entry) store.entry.n below position part result
        × Told (seen view.entry) rules (stored_in store.entry) store.entry.n told.new }
{
    if !lies_within(part, store.references.len() / REFERENCE_WIDTH) {
        return Ok(());
    }
    for k in 0..part.len {
        let r = reference_at(store.references, part.at + k);
        let target = target_of(view.image, view.s, rules, position, r);
        failed_at(view, rules, below, store, k, r.goal, target, told)?;
    }
    Ok(())
}

// Whether the match of the segment `number` at `position`, whose references are a part of the rows, does not hold to a depth
// above 0. If it holds, that is remembered, for those who lead there. The other parameters are those of `failed_among`.
pub fn fails_deep(
    view: View,
    rules: Rules,
    depth: u64,
    number: SegmentNumber,
    position: usize,
    store: StoredSegments,
    part: Part,
    told: &mut [u16],
) -> bool
    requires { (1 ≤ depth) × Told (seen view) rules (stored_in store) store.n told.old
        × Carries (seen view) rules (stored_in store) store.n number part }
    ensures { KeepsOut (seen view.entry) rules (stored_in store.entry) store.entry.n depth position part result
        × Told (seen view.entry) rules (stored_in store.entry) store.entry.n told.new }
{
    if failed_among(view, rules, depth - 1, position, store, part, told).is_err() {
        return true;
    }
    if number.0 < store.n {
        remember(told, number.0, position as u64, depth - 1, true);
    }
    false
}

// The first reference in a part of the rows that fails at a depth, for a match at `position`, and why; at depth 0 none does.
// The other parameters are those of `failed_among`.
pub fn first_failed(
    view: View,
    rules: Rules,
    depth: u64,
    position: usize,
    store: StoredSegments,
    part: Part,
) -> Result<(), Failure>
    ensures { FailsTo (seen view.entry) rules (stored_in store.entry) store.entry.n depth position part result }
{
    if depth == 0 {
        return Ok(());
    }
    let mut told: [u16; FEW_PLACES] = zeros();
    failed_among(view, rules, depth - 1, position, store, part, &mut told)
}
