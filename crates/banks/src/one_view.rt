// The run on one bank's view, once the segments are collected.
ghost use Rattle.std.specs.Prelude.{◌≡◌, ◌<◌, ◌≤◌, length};
ghost use Rattle.image.specs.View.{view};
ghost use Rattle.run.specs.Run.{lent_lists, cover};
ghost use Rattle.banks.specs.Turns.{FindsView};
ghost use Rattle.bank_rules.specs.Banks.{Has};

use crate::cut::cut;
use crate::view::show_bank;
use collect::stored::CollectCounts;
use image::LONGEST_IMAGE;
use lent::refusal::Refusal;
use libfind::collected::find_collected;
use run::{Counts, Settings};
use tables::zeros::zeros;

// Searches bank k's view of a board's file, and lists what is found in the lines from the number `at` on; those before stay as
// they are. The other parameters are those of `find_collected`.
pub fn find_view(
    file: &[u8],
    library: &[u8],
    settings: Settings,
    collected: CollectCounts,
    k: usize,
    segments: &mut [u64],
    references: &mut [u64],
    symbols: &mut [u64],
    bytes: &mut [u8],
    masks: &mut [u8],
    placed: &mut [u64],
    noted: &mut [u64],
    lines: &mut [u64],
    at: usize,
) -> Result<Counts, Refusal>
    requires { Has k file.now × (k < 16) × (at ≤ length lines.old) }
    ensures { FindsView (view file.now (cover settings)) library.now settings collected k at
        (lent_lists segments.old references.old symbols.old bytes.old masks.old placed.old noted.old lines.old) result
        (lent_lists segments.new references.new symbols.new bytes.new masks.new placed.new noted.new lines.new) }
{
    let mut seen: [u8; LONGEST_IMAGE] = zeros();
    show_bank(file, k, &mut seen);
    find_collected(
        &seen,
        library,
        cut(settings, k),
        collected,
        segments,
        references,
        symbols,
        bytes,
        masks,
        placed,
        noted,
        &mut lines[at..],
    )
}
