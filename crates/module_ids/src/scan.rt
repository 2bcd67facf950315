// The first of refusals 10 to 13 in a library, in file order.
ghost use Rattle.omf51.specs.Module.{sections_at, module_at};
ghost use Rattle.library.specs.Gathered.{items_at};
ghost use Rattle.library.specs.items.Left.{fixups_left};
ghost use Rattle.module_ids.specs.Noted.{Fillable};
ghost use Rattle.module_ids.specs.fault.Scan.{fixups_fault, section_fault, sections_fault, Says, Scanned, section_with};

use crate::fault::one::{content_fault, fixup_fault};
use crate::row::id_row;
use crate::table::{clear, fill};
use lent::refusal::Refusal;
use library::edition::EditionOne;
use library::items::contents::next_content;
use library::items::decoded::next_fixup;
use library::items::{Cursor, NextContent, NextFixup};
use library::module::module_at;
use omf51::Content;

// The first refusal among the fixups of a content, from a cursor on.
fn fixups_fault(library: &[u8], table: &[u32], from: Cursor) -> Result<(), Refusal>
    ensures { Says (λ ds. fixups_fault ds (fixups_left library.now from)) table.now result }
{
    let mut c = from;
    while let Some(NextFixup { fixup, rest }) = next_fixup(library, c) {
        fixup_fault(id_row(table, fixup.id), fixup)?;
        c = rest;
    }
    Ok(())
}

// The first refusal of one content: its fixups are tested first, and then whether the content passes its segment's size.
fn section_fault(
    library: &[u8],
    table: &[u32],
    content: Content,
    fixups: Cursor,
) -> Result<(), Refusal>
    ensures { Says (λ ds. section_fault ds (section_with content (fixups_left library.now fixups))) table.now result }
{
    fixups_fault(library, table, fixups)?;
    content_fault(id_row(table, content.id), content)
}

// The first refusal among the contents of a module, from a place on.
fn sections_fault(library: &[u8], table: &[u32], from: usize) -> Result<(), Refusal>
    ensures { Says (λ ds. sections_fault ds (items_at library.now (sections_at library.now) from)) table.now result }
{
    let mut at = from;
    while let Some(
        NextContent {
            content,
            fixups,
            rest,
        },
    ) = next_content(library, at)
    {
        section_fault(library, table, content, fixups)?;
        at = rest;
    }
    Ok(())
}

// The first refusal among all modules from the place `first` on. The table of ids is lent clear, and is clear again afterwards.
pub fn scan(library: &[u8], first: usize, table: &mut [u32]) -> Result<(), Refusal>
    requires { Fillable library.now table.old }
    ensures { Scanned (items_at library.now (module_at library.now) first) table.new result }
{
    let mut at = first;
    while let Ok(Some(places)) = module_at::<EditionOne>(library, at) {
        fill(library, places.definitions, table);
        let verdict = sections_fault(library, table, places.contents);
        clear(library, places.definitions, table);
        verdict?;
        at = places.next;
    }
    Ok(())
}
