// The targets of a match's references, and which segments match there.
ghost use Rattle.std.specs.Prelude.{◌≡◌, ◌+◌, not, length, ◌==◌, nat_le};
ghost use Rattle.lent.specs.Lists.{keep};
ghost use Rattle.image.specs.View.{stretches_in, view};
ghost use Rattle.image.specs.fixup.Target.{target};
ghost use Rattle.search.specs.Store.{seen, stored_in};
ghost use Rattle.search.specs.targets.Seats.{may_stand, IsMatch};

use crate::{StoredSegments, View};
use image::fixup::{Rules, Target, find_target};
use image::{Seat, match_at};
use lent::names::name;
use segments::rows::segment_at;
use segments::{Reference, SegmentNumber};

// The target of a reference of a match at `position`. A reference that reads past the image's end has none, which is
// found before any sum is taken that could wrap.
pub fn target_of(image: &[u8], s: &[u64], rules: Rules, position: usize, r: Reference) -> Target
    ensures { result ≡ target (view image.now (stretches_in s.now)) rules (position + r.place) r.kind r.offset }
{
    if image.len() < position || image.len() - position < r.place {
        return Target::PastEnd;
    }
    find_target(image, s, rules, position + r.place, r.kind, r.offset as u64)
}

// Whether a pattern may stand at a place at all.
fn may_stand(seat: Seat, at: usize) -> bool
    ensures { result ≡ may_stand seat at }
{
    match seat {
        Seat::Anywhere => true,
        Seat::Only(address) => address == at,
    }
}

// Whether the segment of a number matches at a place: the pattern is compared there, and no table of matches is kept. A
// number that is not below n has no segment, and so no match.
pub fn is_match(view: View, store: StoredSegments, number: SegmentNumber, at: u64) -> bool
    ensures { IsMatch (seen view.entry) (stored_in store.entry) store.entry.n number at result }
{
    if store.n <= number.0 {
        return false;
    }
    let row = segment_at(store.segments, number.0);
    may_stand(row.seat, at as usize)
        && match_at(
            view.image,
            view.s,
            name(store.bytes, row.pattern),
            name(store.masks, row.pattern),
            at as usize,
        )
}

// Whether at least so many masks are not 0.
pub fn reaches(masks: &[u8], least: usize) -> bool
    ensures { result ≡ nat_le least (length (keep (λ mask. not (mask == 0)) masks.now)) }
{
    masks.iter().filter(|mask| **mask != 0).take(least).count() == least
}
