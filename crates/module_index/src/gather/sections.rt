// The contents of a module: the id of each, and the place in the library from which it is read again.
ghost use Rattle.omf51.specs.Module.{sections_at};
ghost use Rattle.library.specs.Gathered.{items_at};
ghost use Rattle.module_index.specs.gather.Places.{section_key, SectionIs, no_section};
ghost use Rattle.module_index.specs.gather.Into.{Roomy, GatheredInto};

use library::items::NextContent;
use library::items::contents::next_content;
use tables::links::thing;

// Stores the id and the place of each content from a place on, and answers how many there are.
pub fn gather_sections(library: &[u8], from: usize, things: &mut [u64]) -> usize
    requires { Roomy 7 library.now things.old }
    ensures { GatheredInto section_key (SectionIs library.now) no_section (items_at library.now (sections_at library.now) from) things.old things.new result }
{
    let mut at = from;
    let mut n = 0;
    while let Some(
        NextContent {
            content,
            fixups,
            rest,
        },
    ) = next_content(library, at)
    {
        things[n] = thing(content.id.0, at);
        n += 1;
        at = rest;
    }
    n
}
