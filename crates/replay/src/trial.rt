// A whole run with lent memory that is full of something else before.
use libfind::entry::find_names;
use recorded::answer::{answer_of, digests_of};
use recorded::header::{lent_within, settings_of};
use run::Settings;

// With lists that are lent whole.
fn with_lists(
    image: &[u8],
    library: &[u8],
    settings: Settings,
    segments: &mut [u64],
    references: &mut [u64],
    symbols: &mut [u64],
    bytes: &mut [u8],
    masks: &mut [u8],
    placed: &mut [u64],
    noted: &mut [u64],
    lines: &mut [u64],
    text: &mut [u8],
) -> [u64; 18] {
    let came = find_names(
        image, library, settings, segments, references, symbols, bytes, masks, placed, noted, lines,
    );
    let left = digests_of(
        segments, references, symbols, bytes, masks, placed, noted, lines,
    );
    answer_of(library, lines, came, left, text)
}

// With as much as is to be lent for what is found. The rooms are full of numbers that no row has, so that what is to be zero afterwards was set to it.
fn with_rows(
    image: &[u8],
    library: &[u8],
    header: &[u8],
    segments: &mut [u64],
    references: &mut [u64],
    symbols: &mut [u64],
    bytes: &mut [u8],
    masks: &mut [u8],
) -> [u64; 18] {
    let mut placed = [0xa5a5_a5a5_a5a5_a5a5u64; 8192];
    let mut noted = [0xa5a5_a5a5_a5a5_a5a5u64; 4096];
    let mut lines = [0xa5a5_a5a5_a5a5_a5a5u64; 4096];
    let mut text = [0xa5u8; 32768];
    let p = lent_within(header, 5, 8192);
    let n = lent_within(header, 6, 4096);
    let l = lent_within(header, 7, 4096);
    with_lists(
        image,
        library,
        settings_of(header),
        segments,
        references,
        symbols,
        bytes,
        masks,
        &mut placed[0..p],
        &mut noted[0..n],
        &mut lines[0..l],
        &mut text,
    )
}

// With as much as is to be lent for the collection.
pub fn run_back(image: &[u8], library: &[u8], header: &[u8]) -> [u64; 18] {
    let mut segments = [0xa5a5_a5a5_a5a5_a5a5u64; 4096];
    let mut references = [0xa5a5_a5a5_a5a5_a5a5u64; 8192];
    let mut symbols = [0xa5a5_a5a5_a5a5_a5a5u64; 2048];
    let mut bytes = [0xa5u8; 65792];
    let mut masks = [0xa5u8; 65792];
    let s = lent_within(header, 0, 4096);
    let r = lent_within(header, 1, 8192);
    let y = lent_within(header, 2, 2048);
    let b = lent_within(header, 3, 65792);
    let m = lent_within(header, 4, 65792);
    with_rows(
        image,
        library,
        header,
        &mut segments[0..s],
        &mut references[0..r],
        &mut symbols[0..y],
        &mut bytes[0..b],
        &mut masks[0..m],
    )
}
