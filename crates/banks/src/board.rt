// The file of a board: whether it is one, and how many banks it has.
ghost use Rattle.std.specs.Prelude.{◌≡◌};
ghost use Rattle.libfind.specs.Begin.{checked};
ghost use Rattle.bank_rules.specs.Banks.{is_banked, banks_in, not_banked};

use lent::refusal::Refusal;

// The size of the common part, and of each bank.
pub const BANK: usize = 32768;

// A file has so many bytes at least, the common part and a bank, and at most, the common part and 16 banks.
const SMALLEST_BOARD: usize = 65536;

pub const LONGEST_BOARD: usize = 557056;

// Whether a file of this length is a common part and 1 to 16 banks.
fn is_banked(size: usize) -> bool
    ensures { result ≡ is_banked size }
{
    size % BANK == 0 && (SMALLEST_BOARD <= size && size <= LONGEST_BOARD)
}

// Whether a file of this length is accepted for itself, as a board.
pub fn board(size: usize) -> Result<(), Refusal>
    ensures { result ≡ checked (not_banked size) }
{
    if is_banked(size) {
        return Ok(());
    }
    Err(Refusal::NotBanked)
}

// How many banks a file of this length has; one that is too short for any has none.
pub fn banks_in(size: usize) -> usize
    ensures { result ≡ banks_in size }
{
    (size / BANK).saturating_sub(1)
}
