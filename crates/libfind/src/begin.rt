// The beginning of a run, before anything is written: the settings, the lengths, and whether the library can be read.
ghost use Rattle.std.specs.Prelude.{◌≡◌};
ghost use Rattle.run.specs.Run.{too_long};
ghost use Rattle.libfind.specs.Begin.{settings_refusal, checked, refusal_in, beginning};

use image::LONGEST_IMAGE;
use image::cover::{MOST_STRETCHES, first_pairs, passes_end};
use lent::refusal::Refusal;
use library::LONGEST_LIBRARY;
use library::file::read;
use omf51::by_edition::edition_of;
use run::Settings;

// The greatest depth to which references are checked.
const DEEPEST: u64 = 4;

// Whether an image of this length is accepted for itself: as a single image it has 65,536 bytes at most.
pub fn single(size: usize) -> Result<(), Refusal>
    ensures { result ≡ checked (too_long size) }
{
    if LONGEST_IMAGE < size {
        return Err(Refusal::ImageTooLong);
    }
    Ok(())
}

// Checks the settings, and the lengths of the library and of the stretches: the answer is the first of refusals 1, 30, 17, the
// image's own, 3, 16 and 4 that applies. The image was checked for itself; `size` is its length.
fn check(
    own: Result<(), Refusal>,
    size: usize,
    library: usize,
    settings: Settings,
) -> Result<(), Refusal>
    ensures { result ≡ checked (settings_refusal (refusal_in own) size library settings) }
{
    if 1 < settings.rules {
        return Err(Refusal::RuleSet);
    }
    if settings.edition < 1 || 2 < settings.edition {
        return Err(Refusal::OtherEdition);
    }
    if DEEPEST < settings.depth {
        return Err(Refusal::TooDeep);
    }
    own?;
    if LONGEST_LIBRARY < library {
        return Err(Refusal::LibraryTooLong);
    }
    let withheld = settings.withheld;
    if MOST_STRETCHES < withheld.count {
        return Err(Refusal::TooManyStretches);
    }
    let pairs = withheld.pairs;
    if passes_end(first_pairs(&pairs, withheld.count), size) {
        return Err(Refusal::StretchPastEnd);
    }
    Ok(())
}

// The place where the library's modules start: checks the settings and lengths, and then reads the library. The image was
// checked for itself; `size` is its length.
pub fn begin(
    own: Result<(), Refusal>,
    size: usize,
    library: &[u8],
    settings: Settings,
) -> Result<usize, Refusal>
    ensures { result ≡ beginning (refusal_in own) size library.now settings }
{
    check(own, size, library.len(), settings)?;
    let reading = read(library, edition_of(settings.edition))?;
    Ok(reading.first)
}
