// A name is noted at a target.
ghost use Rattle.std.specs.Prelude.{◌≡◌};
ghost use Rattle.lent.specs.Rows.{put_row};
ghost use Rattle.search_rules.specs.SearchRows.{noted_cells};
ghost use Rattle.search_rules.specs.SearchLayouts.{noted_at};
ghost use Rattle.search.specs.note.NotedNames.{validated, NotesOne};

use crate::rows::noted_at;
use lent::part::Part;
use lent::rows::Row;
use search_rules::{NOTED_WIDTH, Noted};
use tables::by_name::{BUCKETS, KEYS, bucket, find, head_at, set_heads};
use tables::fill::{Fill, append};

// Makes row i valid: a valid match notes the same name at the same target once more.
fn validate(m: &mut [u64], i: usize)
    ensures { m.new ≡ put_row 6 m.old i (noted_cells (validated (noted_at m.old i))) }
{
    let row = noted_at(m, i);
    Noted { valid: true, ..row }.put(m, i);
}

// Notes a name at a target: a name has one row for a target, and is valid if any match that noted it was. `heads` has
// the heads of the buckets by which rows of noted names are found; `f` says how far these rows are filled.
pub fn note_name(
    library: &[u8],
    target: u64,
    name: Part,
    valid: bool,
    noted: &mut [u64],
    heads: &mut [u32],
    f: Fill,
) -> Fill
    ensures { NotesOne library.now target name valid noted.old heads.old f noted.new heads.new result }
{
    if f.over {
        return f;
    }
    let shared = bucket(library, target, name);
    let alike = head_at(heads, KEYS + shared);
    let there = find(library, noted, NOTED_WIDTH, alike, target, name);
    if there != 0 {
        if valid {
            validate(noted, there - 1);
        }
        return f;
    }
    let link = head_at(heads, (target % BUCKETS) as usize);
    let more = append(
        noted,
        f,
        Noted {
            target,
            name,
            valid,
            link,
            alike,
        },
    );
    if more.over {
        return more;
    }
    set_heads(heads, target, shared, more.rows);
    more
}
