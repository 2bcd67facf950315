// What the program lends beside the lists of command::memory: for placed symbols and for noted names there is a row for every eight bytes of the longest image;
// ordinary firmware takes some hundreds.
//
// The stack: the lists take 2,883,536 bytes and the two files 131,074. Beside them stand the tables of one stage at a time (crates/tables/src/zeros.rt). Measured,
// the program takes 5,195 KiB in all, and 7,061 KiB as Rattle's own compiler builds it, of the 8 MiB that it usually has.
use command::memory::lent_with;
use run::Counts;

const PLACED: usize = 8192;

const NOTED: usize = 8192;

// How many numbers the rows take: eight for a symbol that is placed, six for a name that is noted.
pub const PLACED_NUMBERS: usize = 8 * PLACED;

pub const NOTED_NUMBERS: usize = 6 * NOTED;

pub fn lent() -> Counts {
    lent_with(PLACED, NOTED)
}
