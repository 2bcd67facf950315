// The table of a module's ids: filled from the module's definitions, and cleared after the module.
ghost use Rattle.std.specs.Prelude.{◌≡◌, [], ◌+◌, ◌<◌, ◌^◌};
ghost use Rattle.omf51.specs.Module.{definitions_at};
ghost use Rattle.library.specs.Gathered.{items_at};
ghost use Rattle.segments.specs.Ids.{code_info, is_kept, id_of};
ghost use Rattle.module_ids.specs.IdRows.{id_row_at, Small};
ghost use Rattle.module_ids.specs.Noted.{first_mark, first_name, first_kept_as, changed as changed_row, note_in, StaysSmall, kept_after, no_row, Tells, Fillable, Filled};

use crate::row::{id_row, put_id};
use crate::{IdRow, KeptSegment, Mark};
use lent::part::Part;
use library::items::NextDefinition;
use library::items::decoded::next_definition;
use library::items::entries::start;
use omf51::{Definition, ModuleId};

// Whether info says code: its low three bits are 0.
pub fn code_info(info: u8) -> bool
    ensures { result ≡ code_info info }
{
    info & 7 == 0
}

// Whether a definition is a kept segment: its id is not 0, it is code, and its relocation byte is not 0.
pub fn is_kept(d: Definition) -> bool
    ensures { result ≡ is_kept d }
{
    match d {
        Definition::Segment {
            id,
            info,
            relocation,
            ..
        } => id.0 != 0 && code_info(info) && relocation != 0,
        Definition::Public { .. } | Definition::External { .. } => false,
    }
}

// The id of a definition.
pub fn id_of(d: Definition) -> ModuleId
    ensures { (result ≡ id_of d) × (result.0 < 65536) }
{
    match d {
        Definition::Segment { id, .. }
        | Definition::Public { id, .. }
        | Definition::External { id, .. } => id,
    }
}

// The mark of an id after one more definition: the first definition of the id stays.
fn first_mark(old: Mark, code: bool) -> Mark
    ensures { result ≡ first_mark old code }
{
    match old {
        Mark::Missing if code => Mark::Code,
        Mark::Missing => Mark::Other,
        Mark::Other | Mark::Code => old,
    }
}

// The name of an id's first external after one more external: the name stays if there was an external before.
fn first_name(mark: Mark, old: Part, new: Part) -> Part
    ensures { result ≡ first_name mark old new }
{
    match mark {
        Mark::Missing => new,
        Mark::Other | Mark::Code => old,
    }
}

// The first kept segment of an id after one more segment: the first kept one stays.
fn first_kept(
    old: Option<KeptSegment>,
    kept: bool,
    place: usize,
    size: usize,
) -> Option<KeptSegment>
    ensures { result ≡ first_kept_as old kept place size }
{
    match old {
        None if kept => Some(KeptSegment { place, size }),
        _ => old,
    }
}

// The row of a definition's id after the definition; the module has `n` kept segments before it.
fn changed(row: IdRow, n: usize, d: Definition) -> IdRow
    ensures { result ≡ changed_row row n d }
{
    match d {
        Definition::Segment { info, size, .. } => IdRow {
            segment: first_mark(row.segment, code_info(info)),
            kept: first_kept(row.kept, is_kept(d), n, size),
            ..row
        },
        Definition::Public { .. } => row,
        Definition::External { info, name, .. } => IdRow {
            external: first_mark(row.external, code_info(info)),
            name: first_name(row.external, row.name, name),
            ..row
        },
    }
}

// Changes the table by one definition; the module has `n` kept segments before it. No id leads to a public definition.
fn note(table: &mut [u32], n: usize, d: Definition)
    requires { StaysSmall n d }
    ensures { (table.new ≡ note_in table.old n d) × ((id_of d).0 < 65536) × Small (changed_row (id_row_at table.old (id_of d)) n d) }
{
    let id = id_of(d);
    if let Definition::Public { .. } = d {
        return;
    }
    let row = id_row(table, id);
    put_id(table, id, changed(row, n, d));
}

// The number of kept segments, counting this definition.
fn kept_after(n: usize, d: Definition) -> usize
    requires { n + 1 < 2 ^ 64 }
    ensures { result ≡ kept_after n d }
{
    n + usize::from(is_kept(d))
}

// Fills a clear table from all definitions of a module, from a place on, and answers how many segments are kept.
pub fn fill(library: &[u8], at: usize, table: &mut [u32]) -> usize
    requires { Fillable library.now table.old }
    ensures { Filled (items_at library.now (definitions_at library.now) at) table.new result }
{
    let mut c = start(at);
    let mut n = 0;
    while let Some(NextDefinition { definition, rest }) = next_definition(library, c) {
        note(table, n, definition);
        n = kept_after(n, definition);
        c = rest;
    }
    n
}

// Clears the rows of all ids that the definitions from a place on have, which are mostly far fewer than the table has.
pub fn clear(library: &[u8], at: usize, table: &mut [u32])
    requires { Tells (items_at library.now (definitions_at library.now) at) table.old }
    ensures { Tells [] table.new }
{
    let mut c = start(at);
    while let Some(NextDefinition { definition, rest }) = next_definition(library, c) {
        put_id(table, id_of(definition), no_row());
        c = rest;
    }
}

// The row of an id that has no definition.
fn no_row() -> IdRow
    ensures { result ≡ no_row }
{
    IdRow {
        segment: Mark::Missing,
        kept: None,
        external: Mark::Missing,
        name: Part { at: 0, len: 0 },
    }
}
