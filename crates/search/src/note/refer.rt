// The references of a match are gone over in file order.
ghost use Rattle.search.specs.Store.{seen, stored_in};
ghost use Rattle.search.specs.note.NotedNames.{NotesAt, RefersAll};

use crate::failed::failed_by;
use crate::note::Referred;
use crate::note::name::note_name;
use crate::targets::target_of;
use crate::{StoredSegments, View};
use image::fixup::{Rules, Target};
use lent::part::Part;
use segments::Goal;
use segments::recalled::lies_within;
use segments::rows::{REFERENCE_WIDTH, reference_at};
use tables::fill::Fill;

// Notes what a reference notes, by its goal and target: a name, at its target. Nothing is checked here. The other
// parameters are those of `refer_all`.
fn note_at(
    library: &[u8],
    goal: Goal,
    target: Target,
    valid: bool,
    noted: &mut [u64],
    heads: &mut [u32],
    f: Fill,
) -> Fill
    ensures { NotesAt library.now valid goal target noted.old heads.old f noted.new heads.new result }
{
    let Target::At(t) = target else {
        return f;
    };
    let Goal::Name(name) = goal else {
        return f;
    };
    note_name(library, t, name, valid, noted, heads, f)
}

// Goes over the references in a part of the rows, for a match at `position`: each notes its name, and each is checked until
// one fails. The image gives the targets, each of which is made once; the collection tells what matches there; names, parts
// of `library`, go into `noted`, whose rows are found by `heads` and filled up to `before`.
pub fn refer_all(
    view: View,
    rules: Rules,
    position: usize,
    valid: bool,
    library: &[u8],
    store: StoredSegments,
    part: Part,
    noted: &mut [u64],
    heads: &mut [u32],
    before: Fill,
) -> Referred
    ensures { RefersAll (seen view.entry) rules position valid library.now (stored_in store.entry) store.entry.n part
        noted.old heads.old before noted.new heads.new result }
{
    let mut failed = Ok(());
    let mut f = before;
    if !lies_within(part, store.references.len() / REFERENCE_WIDTH) {
        return Referred { failed, fill: f };
    }
    for k in 0..part.len {
        let r = reference_at(store.references, part.at + k);
        let target = target_of(view.image, view.s, rules, position, r);
        f = note_at(library, r.goal, target, valid, noted, heads, f);
        if failed.is_ok() {
            failed = failed_by(view, store, k, r.goal, target);
        }
    }
    Referred { failed, fill: f }
}
