// Which of the kept segments of an id gets the contents of that id.
ghost use Rattle.std.specs.Prelude.{◌≡◌, get_or};
ghost use Rattle.module_index.specs.owner.Owned.{is_first, link_at};

use module_ids::{IdRow, KeptSegment};
use omf51::ModuleId;
use tables::links::number_at;

// The link to the first content, or public definition, of an id.
pub fn head_of(heads: &[u32], id: ModuleId) -> u32
    ensures { result ≡ get_or heads.now id.0 0 }
{
    number_at(heads, id.0 as usize)
}

// Whether the segment at this place among the module's kept segments is the first kept segment of its id.
fn is_first(kept: Option<KeptSegment>, place: usize) -> bool
    ensures { result ≡ is_first kept place }
{
    kept.is_some_and(|k| k.place == place)
}

// The link to the first content that goes to the kept segment at a place. All contents of an id go to the first kept
// segment of that id; a further one gets none, and its link is 0.
pub fn link_at(heads: &[u32], id: ModuleId, row: IdRow, place: usize) -> u32
    ensures { result ≡ link_at heads.now id row place }
{
    if is_first(row.kept, place) {
        return head_of(heads, id);
    }
    0
}
