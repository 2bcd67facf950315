// Segments are stored in lent memory, one behind another, until there is no room.
pub mod row;
pub mod rules;

// How much is stored so far: rows of segments, references and symbols, and bytes of pattern memory.
#[derive(Clone, Copy, Debug, PartialEq, Eq)]
pub struct CollectCounts {
    pub segments: usize,
    pub references: usize,
    pub symbols: usize,
    pub pattern: usize,
}

// There is no room for all that was to be stored; nobody looks at what the memory holds then, and it is cleared.
#[derive(Clone, Copy, Debug, PartialEq, Eq)]
pub struct NoRoom;
