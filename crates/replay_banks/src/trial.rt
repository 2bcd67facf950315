// A run on a board with lent memory that is full of something else before.
use bank_rules::BankCounts;
use banks::entry::find_banks;
use recorded::answer::{Last, digests_of, numbers_of};
use recorded::digest::of_numbers;
use recorded::header::{lent_within, settings_of};
use run::Settings;

// The number of banks, and the digest of how many lines each has.
fn last_of(found: BankCounts) -> Last {
    Last {
        size: found.banks,
        digest: of_numbers(&found.lines),
    }
}

// With lists that are lent whole.
fn with_lists(
    file: &[u8],
    library: &[u8],
    settings: Settings,
    segments: &mut [u64],
    references: &mut [u64],
    symbols: &mut [u64],
    bytes: &mut [u8],
    masks: &mut [u8],
    placed: &mut [u64],
    noted: &mut [u64],
    lines: &mut [u64],
) -> [u64; 18] {
    let came = find_banks(
        file, library, settings, segments, references, symbols, bytes, masks, placed, noted, lines,
    );
    let left = digests_of(
        segments, references, symbols, bytes, masks, placed, noted, lines,
    );
    // With a refusal there is no bank, and 0 is recorded for both numbers.
    let (answer, last) = match came {
        Ok(found) => (Ok(found.counts), last_of(found)),
        Err(r) => (Err(r), Last::default()),
    };
    numbers_of(answer, left, last)
}

// With as much as is to be lent. The rooms are full of numbers that no row has, so that what is to be zero afterwards was set to it.
pub fn run_back(file: &[u8], library: &[u8], header: &[u8]) -> [u64; 18] {
    let mut segments = [0xa5a5_a5a5_a5a5_a5a5u64; 256];
    let mut references = [0xa5a5_a5a5_a5a5_a5a5u64; 192];
    let mut symbols = [0xa5a5_a5a5_a5a5_a5a5u64; 192];
    let mut bytes = [0xa5u8; 65792];
    let mut masks = [0xa5u8; 65792];
    let mut placed = [0xa5a5_a5a5_a5a5_a5a5u64; 192];
    let mut noted = [0xa5a5_a5a5_a5a5_a5a5u64; 160];
    let mut lines = [0xa5a5_a5a5_a5a5_a5a5u64; 768];
    let s = lent_within(header, 0, 256);
    let r = lent_within(header, 1, 192);
    let y = lent_within(header, 2, 192);
    let b = lent_within(header, 3, 65792);
    let m = lent_within(header, 4, 65792);
    let p = lent_within(header, 5, 192);
    let n = lent_within(header, 6, 160);
    let l = lent_within(header, 7, 768);
    with_lists(
        file,
        library,
        settings_of(header),
        &mut segments[0..s],
        &mut references[0..r],
        &mut symbols[0..y],
        &mut bytes[0..b],
        &mut masks[0..m],
        &mut placed[0..p],
        &mut noted[0..n],
        &mut lines[0..l],
    )
}
