// The grades of placed symbols.
ghost use Rattle.std.specs.Prelude.{◌≡◌, ◌||◌};
ghost use Rattle.lent.specs.Lists.{all};
ghost use Rattle.image.specs.View.{stretches_in, view};
ghost use Rattle.segments.specs.SegmentLayouts.{reference_layout};
ghost use Rattle.segments.specs.recalled.Recall.{rows_of};
ghost use Rattle.listing.specs.grade.Grades.{is_found, bears_out, is_borne, row_grade};

use crate::Found;
use image::fixup::{Rules, Target};
use lent::part::Part;
use search::targets::target_of;
use search_rules::{NOTED_WIDTH, PLACED_WIDTH, Placed};
use segments::recalled::lies_within;
use segments::rows::{REFERENCE_WIDTH, reference_at, segment_at};
use segments::{Goal, Reference, SegmentNumber};
use tables::by_name::{KEYS, bucket, find, head_at};

// Whether a row with this key and name is found, from the head of their bucket on.
fn is_found(library: &[u8], width: usize, m: &[u64], heads: &[u32], key: u64, name: Part) -> bool
    ensures { result ≡ is_found library.now width m.now heads.now key name }
{
    let shared = bucket(library, key, name);
    let head = head_at(heads, KEYS + shared);
    find(library, m, width, head, key, name) != 0
}

// Whether a reference of a match at `base` bears out the match: the name that it notes is placed at its target. A
// reference without a target is not asked, nor is a reference to a segment.
fn bears_out(
    image: &[u8],
    s: &[u64],
    rules: Rules,
    found: &Found,
    base: usize,
    r: Reference,
) -> bool
    ensures { let f = found.now in result ≡ bears_out (is_found f.library.now 8 f.placed.now f.positions.now) (view image.now (stretches_in s.now)) rules base r }
{
    let goal = r.goal;
    match target_of(image, s, rules, base, r) {
        Target::PastEnd => true,
        Target::Withheld => true,
        Target::At(t) => {
            let Goal::Name(name) = goal else {
                return true;
            };
            is_found(
                found.library,
                PLACED_WIDTH,
                found.placed,
                found.positions,
                t,
                name,
            )
        }
    }
}

// Whether all references in a part of the rows bear out the match at `base`.
fn bear_out(image: &[u8], s: &[u64], rules: Rules, found: &Found, part: Part, base: usize) -> bool
    ensures { let f = found.now in result ≡ all (bears_out (is_found f.library.now 8 f.placed.now f.positions.now) (view image.now (stretches_in s.now)) rules base) (rows_of reference_layout f.references.now part) }
{
    if !lies_within(part, found.references.len() / REFERENCE_WIDTH) {
        return true;
    }
    for k in 0..part.len {
        let r = reference_at(found.references, part.at + k);
        if !bears_out(image, s, rules, found, base, r) {
            return false;
        }
    }
    true
}

// Whether a match of segment `number` at `base` is borne out: each name that it noted is placed at the target noted. A
// number that is not below n has no segment, and so nothing to ask.
fn is_borne(
    image: &[u8],
    s: &[u64],
    rules: Rules,
    found: &Found,
    number: SegmentNumber,
    base: usize,
) -> bool
    ensures { let f = found.now in result ≡ is_borne (view image.now (stretches_in s.now)) f.library.now rules f.segments.now f.references.now f.n f.placed.now f.positions.now number.0 base }
{
    let i = number.0;
    if found.n <= i {
        return true;
    }
    let row = segment_at(found.segments, i);
    bear_out(image, s, rules, found, row.references, base)
}

// The grade of the placed symbol `row`, 1 to 3; 0 for a symbol that is not graded: it is neither valid, nor is its name
// noted at its position. Image, stretches, rules, segments and references give the targets of the symbol's match.
pub fn grade(image: &[u8], s: &[u64], rules: Rules, found: &Found, row: Placed) -> u8
    ensures { let f = found.now in result ≡ row_grade (view image.now (stretches_in s.now)) f.library.now rules f.segments.now f.references.now f.n f.placed.now f.positions.now f.noted.now f.goals.now row }
{
    let number = row.segment;
    let there = is_found(
        found.library,
        NOTED_WIDTH,
        found.noted,
        found.goals,
        row.position as u64,
        row.name,
    );
    if !row.valid && !there {
        return 0;
    }
    if !is_borne(image, s, rules, found, number, row.base) {
        return 1;
    }
    if there { 3 } else { 2 }
}
