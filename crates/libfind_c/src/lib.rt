// The exported functions of a static library. callers/libfind.h says for C callers what each parameter is.
#![tactic(auto)]

ghost use Rattle.std.specs.Prelude.{◌≡◌};
ghost use Rattle.describe.specs.Described.{described};
ghost use Rattle.listing_rules.specs.LineLayout.{line_at};
ghost use Rattle.listing_rules.specs.Print.{heading, printed_line, printed};
ghost use Rattle.printing.specs.PrintedText.{fitted_text, stored_lines};
ghost use Rattle.run.specs.Run.{lent_lists};
ghost use Rattle.exported.specs.Exported.{settings_of, handed_run, written_in, said_in, width_of};

use exported::numbers::{hand_over, length_of, settings_of, size_of};
use libfind::entry::find_names;
use listing_rules::rows::{LINE_WIDTH, line_at};
use search_rules::{NOTED_WIDTH, PLACED_WIDTH};
use segments::rows::{REFERENCE_WIDTH, SEGMENT_WIDTH, SYMBOL_WIDTH};

// The whole run, with its settings as plain numbers. Gives 0 or the number of a refusal, and leaves the seven counts in
// `counts`; the eight lists behind it are lent to the stages.
#[unsafe(no_mangle)]
pub extern "C" fn sillmarble_find(
    image: &[u8],
    library: &[u8],
    rules: u64,
    edition: u64,
    depth: u64,
    minimum: usize,
    skips: bool,
    amount: usize,
    withheld: &[u64],
    counts: &mut [u64],
    segments: &mut [u64],
    references: &mut [u64],
    symbols: &mut [u64],
    bytes: &mut [u8],
    masks: &mut [u8],
    placed: &mut [u64],
    noted: &mut [u64],
    lines: &mut [u64],
) -> u8
    ensures { record { number = result; counts = counts.new; left = lent_lists segments.new references.new symbols.new bytes.new masks.new placed.new noted.new lines.new }
        ≡ handed_run image.now library.now (settings_of rules edition depth minimum skips amount withheld.now) counts.old
        (lent_lists segments.old references.old symbols.old bytes.old masks.old placed.old noted.old lines.old) }
{
    let settings = settings_of(rules, edition, depth, minimum, skips, amount, withheld);
    let answer = find_names(
        image, library, settings, segments, references, symbols, bytes, masks, placed, noted, lines,
    );
    hand_over(answer, counts)
}

// Prints the heading and the first n lines into `out`, and gives the length of the text; 0 if it does not fit.
#[unsafe(no_mangle)]
pub extern "C" fn sillmarble_print(library: &[u8], lines: &[u64], n: usize, out: &mut [u8]) -> usize
    ensures { (result, out.new) ≡ written_in (fitted_text (printed library.now (stored_lines lines.now n)) out.old) }
{
    size_of(printing::print(library, lines, n, out))
}

// Prints the heading alone into `out`, and gives its length; 0 if it does not fit.
#[unsafe(no_mangle)]
pub extern "C" fn sillmarble_print_heading(out: &mut [u8]) -> usize
    ensures { (result, out.new) ≡ written_in (fitted_text heading out.old) }
{
    size_of(printing::print_heading(out))
}

// Prints line i alone into `out`, and gives its length; 0 if it does not fit.
#[unsafe(no_mangle)]
pub extern "C" fn sillmarble_print_line(
    library: &[u8],
    lines: &[u64],
    i: usize,
    out: &mut [u8],
) -> usize
    ensures { (result, out.new) ≡ written_in (fitted_text (printed_line library.now (line_at lines.now i)) out.old) }
{
    size_of(printing::print_line(library, line_at(lines, i), out))
}

// Writes the description of a name into `out`, and gives its length: 0 if the name has none, the largest number of 64
// bits if it does not fit.
#[unsafe(no_mangle)]
pub extern "C" fn sillmarble_describe(name: &[u8], out: &mut [u8]) -> usize
    ensures { (result, out.new) ≡ said_in (described name.now out.old) }
{
    length_of(describe::entry::describe(name, out))
}

// How many numbers or bytes a row of a lent list has; 0 for a list that there is not. The lists are numbered from 0 on,
// in the order in which `sillmarble_find` takes them.
#[unsafe(no_mangle)]
pub extern "C" fn sillmarble_row_width(list: usize) -> usize
    ensures { result ≡ width_of list }
{
    let widths = [
        SEGMENT_WIDTH,
        REFERENCE_WIDTH,
        SYMBOL_WIDTH,
        1,
        1,
        PLACED_WIDTH,
        NOTED_WIDTH,
        LINE_WIDTH,
    ];
    widths.get(list).copied().unwrap_or(0)
}
