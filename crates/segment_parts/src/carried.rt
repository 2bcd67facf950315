// The symbols that a segment carries.
ghost use Rattle.std.specs.Prelude.{◌≡◌, ◌&&◌, ◌+◌, leb, ltb};

// The offsets inside `len` bytes from `at` on. With `own` a symbol's offset is counted from `at`, so that the symbol is
// placed at its own address.
#[derive(Clone, Copy, Debug, PartialEq, Eq)]
pub struct Window {
    pub at: usize,
    pub len: usize,
    pub own: bool,
}

// Which public definitions become symbols: all (those of a kept segment's id), or those with an offset inside a window
// (those of an absolute content).
#[derive(Clone, Copy, Debug, PartialEq, Eq)]
pub enum Carried {
    All,
    Inside(Window),
}

impl Window {
    // Whether an offset is inside. No sum is taken, so that none can wrap.
    pub fn contains(self, offset: usize) -> bool
        ensures { result ≡ (leb self.at offset && ltb offset (self.at + self.len)) }
    {
        self.at <= offset && offset - self.at < self.len
    }
}
