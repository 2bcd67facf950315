// The public definitions of a module: the key of each, and the place in the library at which it is read again.
ghost use Rattle.std.specs.Prelude.{◌≡◌, ◌<◌};
ghost use Rattle.omf51.specs.Module.{definitions_at};
ghost use Rattle.library.specs.Gathered.{items_at};
ghost use Rattle.module_index.specs.gather.Places.{PublicIs, no_definition};
ghost use Rattle.module_index.specs.gather.Publics.{key_by, publics_by, keyed_by};
ghost use Rattle.module_index.specs.gather.Into.{Roomy, GatheredInto};

use library::items::NextDefinition;
use library::items::decoded::next_definition;
use library::items::entries::start;
use omf51::{Definition, ModuleId};
use tables::links::thing;

// Which public definitions are gathered, and by which key: all of them by id, or those of id 0 by offset. This is an enum
// and no closure, since the definitions of what is gathered (`publics_by`, `key_by`) go by it.
#[derive(Clone, Copy, Debug, PartialEq, Eq)]
pub enum PublicsBy {
    Id,
    Offset,
}

impl PublicsBy {
    // The key of a public definition of this id and offset, if it is one of those that are gathered.
    fn key(self, id: ModuleId, offset: usize) -> Option<u16>
        requires { offset < 65536 }
        ensures { result ≡ keyed_by self id offset }
    {
        match self {
            PublicsBy::Id => Some(id.0),
            PublicsBy::Offset if id.0 == 0 => Some(offset as u16),
            PublicsBy::Offset => None,
        }
    }
}

// Stores the key and the place of each public definition from a place on that is to be gathered, and answers how many
// there are. The place is that of the definition's offset, four bytes before the bytes of its name.
pub fn gather_publics(library: &[u8], from: usize, by: PublicsBy, things: &mut [u64]) -> usize
    requires { Roomy 6 library.now things.old }
    ensures { GatheredInto (key_by by) (PublicIs library.now) no_definition (publics_by by (items_at library.now (definitions_at library.now) from)) things.old things.new result }
{
    let mut c = start(from);
    let mut n = 0;
    while let Some(NextDefinition { definition, rest }) = next_definition(library, c) {
        if let Definition::Public { id, offset, name } = definition {
            if let Some(key) = by.key(id, offset) {
                things[n] = thing(key, name.at - 4);
                n += 1;
            }
        }
        c = rest;
    }
    n
}
