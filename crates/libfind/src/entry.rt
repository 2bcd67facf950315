// The flow of a run: the library is read, its segments are collected, the image is searched for them, and the names
// that were found are listed.
ghost use Rattle.std.specs.Prelude.{◌≡◌};
ghost use Rattle.run.specs.Run.{lent_lists, run};
ghost use Rattle.libfind.specs.Ends.{FindsFrom};

use crate::begin::{begin, single};
use crate::collected::{find_collected, rules_of};
use collect::entry::collect;
use lent::refusal::Refusal;
use run::{Counts, Settings};

// Lists at which addresses of an image the names of a library stand. Lent are the five lists of the collection, the two
// of the search (`placed`, `noted`), and the lines. The answer, and what is left in the lent lists, are those of `run`
// (run/specs/Run.antt): counts and rows, or the first refusal that applies.
pub fn find_names(
    image: &[u8],
    library: &[u8],
    settings: Settings,
    segments: &mut [u64],
    references: &mut [u64],
    symbols: &mut [u64],
    bytes: &mut [u8],
    masks: &mut [u8],
    placed: &mut [u64],
    noted: &mut [u64],
    lines: &mut [u64],
) -> Result<Counts, Refusal>
    ensures { record { answer = result; left = lent_lists segments.new references.new symbols.new bytes.new masks.new placed.new noted.new lines.new }
        ≡ run image.now library.now settings
        (lent_lists segments.old references.old symbols.old bytes.old masks.old placed.old noted.old lines.old) }
{
    let first = begin(single(image.len()), image.len(), library, settings)?;
    find_from(
        image, library, settings, first, segments, references, symbols, bytes, masks, placed,
        noted, lines,
    )
}

// The run once the settings are accepted and the library's modules are known to start at `first`: the segments are
// collected. If the collection is refused it clears its own five lists, and the other three are cleared here.
fn find_from(
    image: &[u8],
    library: &[u8],
    settings: Settings,
    first: usize,
    segments: &mut [u64],
    references: &mut [u64],
    symbols: &mut [u64],
    bytes: &mut [u8],
    masks: &mut [u8],
    placed: &mut [u64],
    noted: &mut [u64],
    lines: &mut [u64],
) -> Result<Counts, Refusal>
    ensures { FindsFrom image.now library.now settings first
        (lent_lists segments.old references.old symbols.old bytes.old masks.old placed.old noted.old lines.old) result
        (lent_lists segments.new references.new symbols.new bytes.new masks.new placed.new noted.new lines.new) }
{
    let rules = rules_of(settings.rules);
    match collect(
        library, rules, first, segments, references, symbols, bytes, masks,
    ) {
        Ok(collected) => find_collected(
            image, library, settings, collected, segments, references, symbols, bytes, masks,
            placed, noted, lines,
        ),
        Err(r) => {
            placed.fill(0);
            noted.fill(0);
            lines.fill(0);
            Err(r)
        }
    }
}
