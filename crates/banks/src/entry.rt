// The run on a board with switched banks: the library is read and its segments are collected once, and then each bank's view is
// searched and listed.
ghost use Rattle.std.specs.Prelude.{◌≡◌};
ghost use Rattle.run.specs.Run.{lent_lists};
ghost use Rattle.bank_rules.specs.Banks.{find_banks};
ghost use Rattle.banks.specs.EntryLaws.{BegunBoard};

use crate::board::{banks_in, board};
use crate::views::find_views;
use bank_rules::BankCounts;
use collect::entry::collect;
use lent::refusal::Refusal;
use libfind::begin::begin;
use libfind::collected::rules_of;
use run::Settings;

// Lists at which addresses of each bank's view the names of a library stand, for a board's file. Lent are the lists of `find_names`
// (libfind), of which the lines are for all banks together. The answer, and what is left in the lent lists, are those of
// `find_banks` (bank_rules/specs/Banks.antt): counts and rows, or the first refusal that applies.
pub fn find_banks(
    file: &[u8],
    library: &[u8],
    settings: Settings,
    segments: &mut [u64],
    references: &mut [u64],
    symbols: &mut [u64],
    bytes: &mut [u8],
    masks: &mut [u8],
    placed: &mut [u64],
    noted: &mut [u64],
    lines: &mut [u64],
) -> Result<BankCounts, Refusal>
    ensures { record { answer = result; left = lent_lists segments.new references.new symbols.new bytes.new masks.new placed.new noted.new lines.new }
        ≡ find_banks file.now library.now settings
        (lent_lists segments.old references.old symbols.old bytes.old masks.old placed.old noted.old lines.old) }
{
    let first = begin(board(file.len()), file.len(), library, settings)?;
    find_from(
        file, library, settings, first, segments, references, symbols, bytes, masks, placed, noted,
        lines,
    )
}

// The run once the settings are accepted and the library's modules are known to start at `first`: the segments are
// collected. If the collection is refused it clears its own five lists, and the other three are cleared here.
fn find_from(
    file: &[u8],
    library: &[u8],
    settings: Settings,
    first: usize,
    segments: &mut [u64],
    references: &mut [u64],
    symbols: &mut [u64],
    bytes: &mut [u8],
    masks: &mut [u8],
    placed: &mut [u64],
    noted: &mut [u64],
    lines: &mut [u64],
) -> Result<BankCounts, Refusal>
    requires { BegunBoard file.now library.now settings first }
    ensures { record { answer = result; left = lent_lists segments.new references.new symbols.new bytes.new masks.new placed.new noted.new lines.new }
        ≡ find_banks file.now library.now settings
        (lent_lists segments.old references.old symbols.old bytes.old masks.old placed.old noted.old lines.old) }
{
    let rules = rules_of(settings.rules);
    match collect(
        library, rules, first, segments, references, symbols, bytes, masks,
    ) {
        Ok(collected) => find_views(
            file,
            library,
            settings,
            collected,
            banks_in(file.len()),
            segments,
            references,
            symbols,
            bytes,
            masks,
            placed,
            noted,
            lines,
        ),
        Err(r) => {
            placed.fill(0);
            noted.fill(0);
            lines.fill(0);
            Err(r)
        }
    }
}
