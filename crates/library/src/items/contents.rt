// From content to content of a module.
ghost use Rattle.std.specs.Prelude.{◌≡◌, ◌+◌, ◌<◌, ◌≤◌, length};
ghost use Rattle.omf51.specs.Entry.{id_size};
ghost use Rattle.library.specs.items.Contents.{content_here, next_content};

use crate::edition::EditionOne;
use crate::items::NextContent;
use crate::items::decoded::{id_at, word};
use crate::items::entries::start;
use crate::repeat::section_end;
use lent::part::Part;
use omf51::read_entry::id_size;
use omf51::read_record::record_at;
use omf51::types::Allowed;
use omf51::{Content, Frame};

// The content in the body of a record, which has an id and an offset at least.
fn content_of(library: &[u8], f: Frame) -> Content
    requires { (f.body + id_size f + 2 ≤ f.end) × (f.end < length library.now) }
    ensures { result ≡ content_here library.now f }
{
    let body = f.body;
    let ids = id_size(f);
    let data = body + ids + 2;
    Content {
        id: id_at(library, f, body),
        offset: word(library, body + ids),
        part: Part {
            at: data,
            len: f.end - data,
        },
    }
}

// The next content of a module from a place on; records that are skipped among contents are passed over.
pub fn next_content(library: &[u8], from: usize) -> Option<NextContent>
    ensures { result ≡ next_content library.now from }
{
    let mut at = from;
    while let Ok(Some(next)) = section_end::<EditionOne>(library, at) {
        if let Ok(Some(f)) = record_at(library, Allowed::Contents, at) {
            let content = content_of(library, f);
            let fixups = start(f.end + 1);
            return Some(NextContent {
                content,
                fixups,
                rest: next,
            });
        }
        at = next;
    }
    None
}
