// The exported function for boards with switched banks, of a static library of its own. callers/banks.h says for C callers what
// each parameter is; the lists are printed by the functions of libfind_c.
#![tactic(auto)]

ghost use Rattle.std.specs.Prelude.{◌≡◌};
ghost use Rattle.run.specs.Run.{lent_lists};
ghost use Rattle.exported.specs.Exported.{settings_of};
ghost use Rattle.banks_c.specs.Exported.{handed_banks};

use banks::entry::find_banks;
use exported::numbers::{hand_over, settings_of};
use lent::rows::put;

// The run on a board, with its settings as plain numbers. Gives 0 or the number of a refusal, and leaves the seven counts in
// `counts` and the lines of each of 16 banks in `each`; the eight lists behind these are lent to the stages.
#[unsafe(no_mangle)]
pub extern "C" fn sillmarble_find_banks(
    file: &[u8],
    library: &[u8],
    rules: u64,
    edition: u64,
    depth: u64,
    minimum: usize,
    skips: bool,
    amount: usize,
    withheld: &[u64],
    counts: &mut [u64],
    each: &mut [u64],
    segments: &mut [u64],
    references: &mut [u64],
    symbols: &mut [u64],
    bytes: &mut [u8],
    masks: &mut [u8],
    placed: &mut [u64],
    noted: &mut [u64],
    lines: &mut [u64],
) -> u8
    ensures { record { number = result; counts = counts.new; each = each.new; left = lent_lists segments.new references.new symbols.new bytes.new masks.new placed.new noted.new lines.new }
        ≡ handed_banks file.now library.now (settings_of rules edition depth minimum skips amount withheld.now) counts.old each.old
        (lent_lists segments.old references.old symbols.old bytes.old masks.old placed.old noted.old lines.old) }
{
    let settings = settings_of(rules, edition, depth, minimum, skips, amount, withheld);
    match find_banks(
        file, library, settings, segments, references, symbols, bytes, masks, placed, noted, lines,
    ) {
        Ok(board) => {
            put(each, 0, &board.lines);
            hand_over(Ok(board.counts), counts)
        }
        Err(r) => {
            put(each, 0, &[0; 16]);
            hand_over(Err(r), counts)
        }
    }
}
