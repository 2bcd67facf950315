// Going over a whole module again, without storing what was read: its next definition, its
// next content, a content's next fixup.
use omf51::{Content, Definition, Fixup, Frame};

pub mod contents;
pub mod decoded;
pub mod entries;

// Where a walk over entries stands: at a place in the body of a record, with the place of the next record.
#[derive(Clone, Copy)]
pub struct Cursor {
    pub frame: Frame,
    pub at: usize,
    pub next: usize,
}

// The next entry of a walk: the cursor that stands at the entry, and where the entry ends.
#[derive(Clone, Copy)]
pub struct NextEntry {
    pub here: Cursor,
    pub end: usize,
}

// The next definition of a module, and the cursor behind it.
#[derive(Clone, Copy)]
pub struct NextDefinition {
    pub definition: Definition,
    pub rest: Cursor,
}

// The next fixup of a content, and the cursor behind it.
#[derive(Clone, Copy)]
pub struct NextFixup {
    pub fixup: Fixup,
    pub rest: Cursor,
}

// The next content of a module, a cursor before its fixups, and the place after these.
#[derive(Clone, Copy)]
pub struct NextContent {
    pub content: Content,
    pub fixups: Cursor,
    pub rest: usize,
}
