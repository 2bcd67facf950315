// The absolute contents of a module, in file order.
ghost use Rattle.std.specs.Prelude.{◌≤◌, length};
ghost use Rattle.segment_parts.specs.AddedReferences.{Placeable};
ghost use Rattle.collect.specs.stored.Segments.{lists};
ghost use Rattle.collect.specs.absolute.Absolute.{StoresAbsolutes};

pub mod one;

use crate::absolute::one::{AbsoluteFrom, store_absolute};
use crate::stored::{CollectCounts, NoRoom};
use library::items::NextContent;
use library::items::contents::next_content;
use tables::links::{next_at, place_at};
use tables::zeros::{BLOCK_FLAGS, zeros};

// The absolute contents of a module: the link to the first of them, whether their symbols keep their own addresses (see
// `is_own`), and the number of the module's first segment.
#[derive(Clone, Copy, Debug, PartialEq, Eq)]
pub struct Absolutes {
    pub link: u32,
    pub own: bool,
    pub number: usize,
}

// Stores all absolute contents of a module, which are met in `contents`. The n public definitions of id 0 are indexed by
// offset in `publics` and `heads`; the flags that finding them takes are made here. The rest is as in `store_kept`.
pub fn store_absolutes(
    library: &[u8],
    absolutes: Absolutes,
    table: &[u32],
    contents: &[u64],
    publics: &[u64],
    n: usize,
    heads: &[u32],
    before: CollectCounts,
    segments: &mut [u64],
    references: &mut [u64],
    symbols: &mut [u64],
    bytes: &mut [u8],
    masks: &mut [u8],
    apart: &mut [u8],
) -> Result<CollectCounts, NoRoom>
    requires { Placeable table.now absolutes.number 0 × ((65536 ≤ length apart.old) × (length publics.now ≤ 174848)) }
    ensures { StoresAbsolutes library.now absolutes table.now contents.now publics.now n heads.now before
        (lists segments.old references.old symbols.old bytes.old masks.old) apart.old
        (lists segments.new references.new symbols.new bytes.new masks.new) apart.new result }
{
    let mut flags: [u8; BLOCK_FLAGS] = zeros();
    let mut last = 0;
    let mut here = absolutes.link as usize;
    let mut c = before;
    while last < here {
        let place = place_at(contents, here - 1);
        let Some(
            NextContent {
                content,
                fixups,
                ..
            },
        ) = next_content(library, place)
        else {
            return Ok(c);
        };
        let from = AbsoluteFrom {
            content,
            fixups,
            own: absolutes.own,
            n,
        };
        c = store_absolute(
            library,
            table,
            absolutes.number,
            from,
            publics,
            heads,
            c,
            segments,
            references,
            symbols,
            bytes,
            masks,
            apart,
            &mut flags,
        )?;
        last = here;
        here = next_at(contents, here - 1);
    }
    Ok(c)
}
