// The tables of a module, in which its contents and its public definitions are linked by id.
#![tactic(auto)]

ghost use Rattle.omf51.specs.Module.{definitions_at, sections_at};
ghost use Rattle.library.specs.Gathered.{items_at};
ghost use Rattle.module_index.specs.gather.Places.{SectionIs, section_key, PublicIs};
ghost use Rattle.module_index.specs.gather.Publics.{key_by, publics_by};
ghost use Rattle.module_index.specs.Indexed.{Blank};
ghost use Rattle.module_index.specs.IndexedTables.{IndexedInto};

pub mod gather;
pub mod owner;

use crate::gather::publics::{PublicsBy, gather_publics};
use crate::gather::sections::gather_sections;
use tables::links::link;

// Indexes the contents of a module, from a place on, and answers how many there are: each goes into `things`, with its
// id as its key; `first` leads to the first content of each id.
pub fn index_sections(library: &[u8], from: usize, things: &mut [u64], first: &mut [u32]) -> usize
    requires { Blank 7 library.now things.old first.old }
    ensures { IndexedInto (SectionIs library.now) section_key (items_at library.now (sections_at library.now) from) things.old first.old things.new first.new result }
{
    let n = gather_sections(library, from, things);
    link(things, n, first);
    n
}

// Indexes the public definitions of a module, from a place on, all by id or those of id 0 by offset, and answers how many
// there are: each goes into `things`; `first` leads to the first public definition of each key.
pub fn index_publics(
    library: &[u8],
    from: usize,
    by: PublicsBy,
    things: &mut [u64],
    first: &mut [u32],
) -> usize
    requires { Blank 6 library.now things.old first.old }
    ensures { IndexedInto (PublicIs library.now) (key_by by) (publics_by by (items_at library.now (definitions_at library.now) from)) things.old first.old things.new first.new result }
{
    let n = gather_publics(library, from, by, things);
    link(things, n, first);
    n
}
