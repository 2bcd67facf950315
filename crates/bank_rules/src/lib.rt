// The rules of a board with switched banks: 32 KiB of common code and 1 to 16 banks of 32 KiB, which its file has one after
// another. The part sees the common code and one bank at a time, as one image of 64 KiB: bank k's view.
#![tactic(auto)]

use run::Counts;

// What is found on a board: the counts of the run, of which the lines are those of all banks, how many banks there are, and how
// many lines each has. The answer of a run on a board is these, or a refusal.
#[derive(Clone, Copy)]
pub struct BankCounts {
    pub counts: Counts,
    pub banks: usize,
    pub lines: [u64; 16],
}
