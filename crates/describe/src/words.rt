// Words that are taken off the front of a name.

// A word of a list: its letters, and what it says.
#[derive(Clone, Copy)]
pub struct Word {
    pub letters: &'static [u8],
    pub says: &'static [u8],
}

// A word taken off a name: what it says, and the rest of the name.
#[derive(Clone, Copy)]
pub struct Taken<'a> {
    pub says: &'static [u8],
    pub rest: &'a [u8],
}
