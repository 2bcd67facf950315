// The matches of a pattern, one after another, ascending.
ghost use Rattle.image.specs.View.{stretches_in};
ghost use Rattle.search.specs.byte_index.Index.{Heads};
ghost use Rattle.search.specs.matches.Cursor.{Walk, Search, Started, Stepped};
ghost use Rattle.search.specs.declared.matches.MatchCursor.TheVariants.{Along, Once};

use crate::View;
use crate::byte_index::anchor::anchor;
use image::{Seat, match_at, next_match};

// Where the search for a pattern stands: at a link of the anchor's byte, at a place from which on each place is tried,
// at the one address to try, or past the last match.
#[derive(Clone, Copy)]
pub enum MatchCursor {
    Along { anchor: usize, link: u32 },
    Plain(usize),
    Once(usize),
    Over,
}

// A match, and where the search goes on behind it.
#[derive(Clone, Copy)]
pub struct Next {
    pub at: usize,
    pub rest: MatchCursor,
}

// A byte that the image has so many times, or more, makes no anchor: more than half as often as the image has bytes, or
// about as often as there are places where the pattern fits. It is quicker then to try each place.
fn most_places(image: usize, pattern: usize) -> usize {
    image.saturating_sub(pattern).min(image / 2 + 1)
}

// The cursor before the first match of a pattern. `first` has the first place of each byte in the image, and the bytes' counts.
pub fn start(image: &[u8], seat: Seat, bytes: &[u8], masks: &[u8], first: &[u32]) -> MatchCursor
    requires { Heads image.now first.now }
    ensures { Started image.now seat bytes.now masks.now result }
{
    match seat {
        Seat::Anywhere => match anchor(bytes, masks, first, most_places(image.len(), bytes.len())) {
            Some(place) => MatchCursor::Along {
                anchor: place,
                link: first[bytes[place] as usize],
            },
            None => MatchCursor::Plain(0),
        },
        Seat::Only(at) => MatchCursor::Once(at),
    }
}

// The next match, found along the links (`next`) of the anchor's byte from the link `from` on.
fn step_along(
    view: View,
    bytes: &[u8],
    masks: &[u8],
    next: &[u32],
    anchor: usize,
    from: u32,
) -> Option<Next>
    requires { Walk view.image.now bytes.now masks.now next.now anchor from }
    ensures { Stepped view.entry.image.now (stretches_in view.entry.s.now) bytes.now masks.now (Along anchor from) result }
{
    let mut link = from;
    while link != 0 {
        let place = link as usize - 1;
        link = next[place];
        if anchor <= place {
            let at = place - anchor;
            if match_at(view.image, view.s, bytes, masks, at) {
                return Some(Next {
                    at,
                    rest: MatchCursor::Along { anchor, link },
                });
            }
        }
    }
    None
}

// The match at the one address where a pattern may stand. It is a function of its own so that the other steps of
// `next_place` copy no slices for it.
fn step_once(view: View, bytes: &[u8], masks: &[u8], at: usize) -> Option<Next>
    ensures { Stepped view.entry.image.now (stretches_in view.entry.s.now) bytes.now masks.now (Once at) result }
{
    if match_at(view.image, view.s, bytes, masks, at) {
        return Some(Next {
            at,
            rest: MatchCursor::Over,
        });
    }
    None
}

// The next match of a pattern from a cursor on, where it is seen.
pub fn next_place(
    view: View,
    bytes: &[u8],
    masks: &[u8],
    next: &[u32],
    c: MatchCursor,
) -> Option<Next>
    requires { Search view.image.now bytes.now masks.now next.now c }
    ensures { Stepped view.entry.image.now (stretches_in view.entry.s.now) bytes.now masks.now c result }
{
    match c {
        MatchCursor::Along { anchor, link } => step_along(view, bytes, masks, next, anchor, link),
        MatchCursor::Plain(from) => {
            let at = next_match(view.image, view.s, bytes, masks, from)?;
            Some(Next {
                at,
                rest: MatchCursor::Plain(at + 1),
            })
        }
        MatchCursor::Once(at) => step_once(view, bytes, masks, at),
        MatchCursor::Over => None,
    }
}
