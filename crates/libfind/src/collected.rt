// The run once the segments are collected: the image is searched for them, and the names that were found are listed.
ghost use Rattle.std.specs.Prelude.{◌≡◌, ◌≤◌};
ghost use Rattle.image.specs.fixup.Target.{rules_of};
ghost use Rattle.run.specs.Run.{lent_lists, asked_of};
ghost use Rattle.libfind.specs.Ends.{answer_by, FindsCollected, FindsByHeads};

use collect::stored::CollectCounts;
use image::cover::first_pairs;
use image::fixup::Rules;
use lent::refusal::Refusal;
use listing::FindCounts;
use listing::entry::list;
use run::{Counts, Settings};
use search::entry::search;
use search_rules::Asked;
use tables::by_name::{HEADS, NEAR, WIDE_HEADS};
use tables::zeros::zeros;

// The run once the segments are collected. Only lists of 16 GiB and more take wide heads.
pub fn find_collected(
    image: &[u8],
    library: &[u8],
    settings: Settings,
    collected: CollectCounts,
    segments: &mut [u64],
    references: &mut [u64],
    symbols: &mut [u64],
    bytes: &mut [u8],
    masks: &mut [u8],
    placed: &mut [u64],
    noted: &mut [u64],
    lines: &mut [u64],
) -> Result<Counts, Refusal>
    ensures { FindsCollected image.now library.now settings collected
        (lent_lists segments.old references.old symbols.old bytes.old masks.old placed.old noted.old lines.old) result
        (lent_lists segments.new references.new symbols.new bytes.new masks.new placed.new noted.new lines.new) }
{
    if placed.len() < NEAR && noted.len() < NEAR {
        return find_by_heads::<HEADS>(
            image, library, settings, collected, segments, references, symbols, bytes, masks,
            placed, noted, lines,
        );
    }
    find_by_heads::<WIDE_HEADS>(
        image, library, settings, collected, segments, references, symbols, bytes, masks, placed,
        noted, lines,
    )
}

// The same with N heads of the buckets by which the rows of the search are found, made once for the search and the list. If the
// search is refused it clears its own seven lists, and the lines are cleared here.
fn find_by_heads<const N: usize>(
    image: &[u8],
    library: &[u8],
    settings: Settings,
    collected: CollectCounts,
    segments: &mut [u64],
    references: &mut [u64],
    symbols: &mut [u64],
    bytes: &mut [u8],
    masks: &mut [u8],
    placed: &mut [u64],
    noted: &mut [u64],
    lines: &mut [u64],
) -> Result<Counts, Refusal>
    requires { N ≤ 262144 }
    ensures { FindsByHeads N image.now library.now settings collected
        (lent_lists segments.old references.old symbols.old bytes.old masks.old placed.old noted.old lines.old) result
        (lent_lists segments.new references.new symbols.new bytes.new masks.new placed.new noted.new lines.new) }
{
    let withheld = settings.withheld;
    let s = first_pairs(&withheld.pairs, withheld.count);
    let skip = settings.skip;
    let asked = asked_of(settings);
    let n = collected.segments;
    let mut positions: [u32; N] = zeros();
    let mut goals: [u32; N] = zeros();
    match search(
        image,
        s,
        asked,
        library,
        n,
        segments,
        references,
        symbols,
        bytes,
        masks,
        placed,
        noted,
        &mut positions,
        &mut goals,
    ) {
        Ok(found) => {
            let listed = list(
                image,
                s,
                asked,
                skip,
                library,
                n,
                segments,
                references,
                symbols,
                bytes,
                masks,
                placed,
                noted,
                lines,
                &mut positions,
                &mut goals,
                found,
            );
            conclude(collected, listed)
        }
        Err(r) => {
            lines.fill(0);
            Err(r)
        }
    }
}

// The answer of the run: the counts of the collection, of the search and of the list, or the refusal of the list.
fn conclude(
    collected: CollectCounts,
    listed: Result<FindCounts, Refusal>,
) -> Result<Counts, Refusal>
    ensures { result ≡ answer_by collected listed }
{
    let found = listed?;
    Ok(Counts {
        segments: collected.segments,
        references: collected.references,
        symbols: collected.symbols,
        pattern: collected.pattern,
        placed: found.placed,
        noted: found.noted,
        lines: found.lines,
    })
}

// What the settings ask of the search.
fn asked_of(settings: Settings) -> Asked
    ensures { result ≡ asked_of settings }
{
    Asked {
        rules: rules_of(settings.rules),
        depth: settings.depth,
        minimum: settings.minimum,
    }
}

// The rule set of a number that was accepted. A `From` would say that every number is a rule set.
pub fn rules_of(number: u64) -> Rules
    ensures { result ≡ rules_of number }
{
    match number {
        1 => Rules::Documented,
        _ => Rules::AsFound,
    }
}
