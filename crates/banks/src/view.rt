// A bank's view: the common part and the bank, side by side.
ghost use Rattle.std.specs.Prelude.{◌≡◌, length};
ghost use Rattle.bank_rules.specs.Banks.{bank_cells, Has};

use crate::board::BANK;

// Copies the common part of a board's file, and behind it bank k.
pub fn show_bank(file: &[u8], k: usize, seen: &mut [u8])
    requires { Has k file.now × (length seen.old ≡ 65536) }
    ensures { seen.new ≡ bank_cells k file.now }
{
    let at = BANK * (k + 1);
    seen[..BANK].copy_from_slice(&file[..BANK]);
    seen[BANK..].copy_from_slice(&file[at..at + BANK]);
}
