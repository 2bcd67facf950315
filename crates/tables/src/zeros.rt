// Tables of zeros, for the collection, the search and the list.
ghost use Rattle.std.specs.Prelude.{◌≡◌};
ghost use Rattle.tables.specs.zeros.Zeros.{repeated};

// How many numbers the table of ids of one module has: a row of three for each of the 65,536 ids.
pub const ID_TABLE: usize = 196608;

// The masks of one content, whose data has fewer than 65,536 bytes.
pub const CONTENT_ROOM: usize = 65536;

// A flag for each 256 public definitions of one module; enough for a library of 1 MiB.
pub const BLOCK_FLAGS: usize = 683;

// The contents of a module, in a library of at most 64 KiB. A content takes 7 bytes at least, so that 9,363 are enough.
pub const FEW_CONTENTS: usize = 9363;

// The public definitions of a module, in a library of at most 64 KiB. A public definition takes 6 bytes at least, so that
// 10,923 are enough.
pub const FEW_PUBLICS: usize = 10923;

// The contents of a module, as in `FEW_CONTENTS`, but in a library of up to 1 MiB, the longest there is.
pub const MANY_CONTENTS: usize = 149797;

// The public definitions of a module in a library of up to 1 MiB.
pub const MANY_PUBLICS: usize = 174763;

// For each byte value the first place in the image that has it, as a link, and then how often the image has it.
pub const BYTE_HEADS: usize = 512;

// For each place of an image of up to 64 KiB the next with the same byte, as a link, or an answer that the check of
// references remembers.
pub const PLACES: usize = 65536;

// The same for an image of at most 4 KiB.
pub const FEW_PLACES: usize = 4096;

// The numbers of which tables are made.
pub trait Number: Copy {
    ghost ZERO: { Self };

    const ZERO: Self;
}

impl Number for u8 {
    ghost ZERO = { 0 };

    const ZERO: u8 = 0;
}

impl Number for u16 {
    ghost ZERO = { 0 };

    const ZERO: u16 = 0;
}

impl Number for u32 {
    ghost ZERO = { 0 };

    const ZERO: u32 = 0;
}

impl Number for u64 {
    ghost ZERO = { 0 };

    const ZERO: u64 = 0;
}

// A table of N zeros. It is made by a function, so that the checker never writes the zeros out.
#[tactic(auto, unfolding(crate::specs::zeros::Zeros::repeated))]
pub fn zeros<T: Number, const N: usize>() -> [T; N]
    ensures { result ≡ repeated N T.ZERO }
{
    [T::ZERO; N]
}
