// What the program lends beside the lists of command::memory. Rows for placed symbols and for noted names are lent for one bank at a time, half as many as for an
// image alone, since a board's file takes more room; the lines are those of all banks.
//
// The stack: the lists take 2,424,784 bytes, the two files 622,594 and a bank's view 65,536. Beside them stand the tables of one stage at a time
// (crates/tables/src/zeros.rt). Measured, the program takes 5,296 KiB in all, and 7,040 KiB as Rattle's own compiler builds it, of the 8 MiB that it
// usually has.
use command::memory::lent_with;
use run::Counts;

const PLACED: usize = 4096;

const NOTED: usize = 4096;

// How many numbers the rows take: eight for a symbol that is placed, six for a name that is noted.
pub const PLACED_NUMBERS: usize = 8 * PLACED;

pub const NOTED_NUMBERS: usize = 6 * NOTED;

pub fn lent() -> Counts {
    lent_with(PLACED, NOTED)
}

// Longer by one byte than any board's file, so that a longer file is known by its length.
pub const BOARD_ROOM: usize = 557057;
