// OMF-51 library files: records, and the definitions, contents and fixups that they hold.
#![tactic(auto)]

ghost use Rattle.std.specs.Prelude.{◌≡◌};
ghost use Rattle.omf51.specs.Entry.{segment_size};

use lent::part::Part;

pub mod allowed_types;
pub mod by_edition;
pub mod entry;
pub mod read_entry;
pub mod read_record;
pub mod types;

// The id by which a module speaks of one of its segments or externals. An id means nothing outside its module.
#[derive(Clone, Copy, Debug, PartialEq, Eq)]
pub struct ModuleId(pub u16);

// A record: its type (called `kind`, since `type` is a word of the language), and where its body starts and ends. The type
// is the file's byte, and no enum: a record of a type that is not known is skipped.
#[derive(Clone, Copy, Debug, PartialEq, Eq)]
pub struct Frame {
    pub kind: u8,
    pub body: usize,
    pub end: usize,
}

// The reading edition: 1 is document 01's; 2 also wants every record to sum to 0, and bodies and the file to be used up.
#[derive(Clone, Copy, Debug, PartialEq, Eq)]
pub enum Edition {
    One,
    Two,
}

// The three sorts of entries in definition records.
#[derive(Clone, Copy)]
pub enum Definition {
    Segment {
        id: ModuleId,
        info: u8,
        relocation: u8,
        size: usize,
        name: Part,
    },
    Public {
        id: ModuleId,
        offset: usize,
        name: Part,
    },
    External {
        id: ModuleId,
        info: u8,
        name: Part,
    },
}

// A content: data for the segment of an id, from an offset on. A content of id 0 is absolute, and its offset is its address.
#[derive(Clone, Copy)]
pub struct Content {
    pub id: ModuleId,
    pub offset: usize,
    pub part: Part,
}

// A fixup: a location in the content before it where an address is missing, how it is written (kind), and of what it is
// the address (block and id), with an offset added. Kind and block are the file's bytes, and no enums: most values have no
// name, and refusals 10 and 11 are about the numbers.
#[derive(Clone, Copy, Debug, PartialEq, Eq)]
pub struct Fixup {
    pub location: usize,
    pub kind: u8,
    pub block: u8,
    pub id: ModuleId,
    pub offset: usize,
}

// The size of a segment: 0 if bit 80h of info is set, else the size in the file, where 0 means 65,536.
pub fn segment_size(info: u8, stored: u16) -> usize
    ensures { result ≡ segment_size info stored }
{
    if info & 0x80 == 0x80 {
        return 0;
    }
    if stored == 0 {
        return 65536;
    }
    usize::from(stored)
}
