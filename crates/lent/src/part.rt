// A part of a list: where it starts, and how many elements it has. A name is a part of the library's bytes, and so is
// the data of a content; the pattern, references and symbols of a segment are parts of lists in lent memory.
#[derive(Clone, Copy, Debug, PartialEq, Eq)]
pub struct Part {
    pub at: usize,
    pub len: usize,
}
