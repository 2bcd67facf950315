// The views of a board's banks, one after another, once the segments are collected.
ghost use Rattle.std.specs.Prelude.{◌≡◌, ◌+◌, ◌*◌, ◌≤◌, length};
ghost use Rattle.image.specs.View.{view};
ghost use Rattle.run.specs.Run.{lent_lists, cover};
ghost use Rattle.collect.specs.stored.Segments.{lists};
ghost use Rattle.libfind.specs.Ends.{Filled};
ghost use Rattle.banks.specs.Turns.{without_rows, board_by};

use crate::one_view::find_view;
use bank_rules::BankCounts;
use collect::stored::CollectCounts;
use lent::refusal::Refusal;
use listing_rules::rows::LINE_WIDTH;
use run::{Counts, Settings};

// The counts before the first bank is searched.
fn without_rows(collected: CollectCounts) -> Counts
    ensures { result ≡ without_rows collected }
{
    Counts {
        segments: collected.segments,
        references: collected.references,
        symbols: collected.symbols,
        pattern: collected.pattern,
        placed: 0,
        noted: 0,
        lines: 0,
    }
}

// Searches and lists each bank's view. If one does not fit it clears all lists but the lines of the banks before, and those are
// cleared here.
pub fn find_views(
    file: &[u8],
    library: &[u8],
    settings: Settings,
    collected: CollectCounts,
    banks: usize,
    segments: &mut [u64],
    references: &mut [u64],
    symbols: &mut [u64],
    bytes: &mut [u8],
    masks: &mut [u8],
    placed: &mut [u64],
    noted: &mut [u64],
    lines: &mut [u64],
) -> Result<BankCounts, Refusal>
    requires { (32768 * (banks + 1) ≤ length file.now) × (1 ≤ banks) × (banks ≤ 16)
        × Filled library.now settings (lent_lists segments.old references.old symbols.old bytes.old masks.old placed.old noted.old lines.old) collected (lists segments.old references.old symbols.old bytes.old masks.old) }
    ensures { record { answer = result; left = lent_lists segments.new references.new symbols.new bytes.new masks.new placed.new noted.new lines.new }
        ≡ board_by (view file.now (cover settings)) library.now settings banks
        (lent_lists segments.old references.old symbols.old bytes.old masks.old placed.old noted.old lines.old) }
{
    let mut each = [0u64; 16];
    let mut counts = without_rows(collected);
    for k in 0..banks {
        let before = counts.lines;
        let at = before * LINE_WIDTH;
        let next = match find_view(
            file, library, settings, collected, k, segments, references, symbols, bytes, masks,
            placed, noted, lines, at,
        ) {
            Ok(next) => next,
            Err(r) => {
                lines.fill(0);
                return Err(r);
            }
        };
        each[k] = next.lines as u64;
        // The rows of the search are this bank's, the lines those of all banks so far.
        counts = Counts {
            placed: next.placed,
            noted: next.noted,
            lines: before + next.lines,
            ..counts
        };
    }
    Ok(BankCounts {
        counts,
        banks,
        lines: each,
    })
}
