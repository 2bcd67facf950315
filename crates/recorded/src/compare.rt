// Case by case: whether what a run comes to is what is recorded of it.
use crate::cases::{CutShort, LIMIT, Scene, is_known, next_case, start};
use crate::header::{is_own, no_header, recorded};
use crate::show::{cut_short, differ, total};
use crate::tally::Tally;
use std::io::Read;

// So many of the cases that differ are shown.
const SHOWN: u64 = 20;

// Counts a case, before which so many passed; it is shown if it differs and few did before.
fn compare(rt: &impl Print, passed: u64, header: &[u8], came: [u64; 18], tally: &mut Tally) {
    if came
        .iter()
        .enumerate()
        .all(|(i, n)| *n == recorded(header, i))
    {
        tally.count(came[0], came[7], is_own(header));
        return;
    }
    if tally.differing < SHOWN {
        differ(rt, passed, header, &came);
    }
    tally.count_differing();
}

// From case to case, each run on an image and a library as its header says; how many there are.
fn compare_each<F: Fn(&[u8], &[u8], &[u8]) -> [u64; 18]>(
    rt: &impl Print,
    cases: &mut impl Read,
    image: &mut [u8],
    library: &mut [u8],
    run: F,
    tally: &mut Tally,
) -> u64
    requires { F.IsAlwaysCallable run }
{
    let mut scene = Scene::default();
    for passed in 0..LIMIT {
        let mut header = no_header();
        match next_case(cases, &mut header, image, library, scene) {
            Ok(Some(now)) => scene = now,
            Ok(None) => return passed,
            Err(CutShort) => {
                cut_short(rt, passed);
                return passed;
            }
        }
        let came = run(
            start(image, scene.image),
            start(library, scene.library),
            &header,
        );
        compare(rt, passed, &header, came, tally);
    }
    LIMIT
}

// Runs each case of a file, with rooms for its image and its library, and tells how many agree.
pub fn compare_all<F: Fn(&[u8], &[u8], &[u8]) -> [u64; 18]>(
    rt: &impl Print,
    cases: &mut impl Read,
    image: &mut [u8],
    library: &mut [u8],
    run: F,
)
    requires { F.IsAlwaysCallable run }
{
    if is_known(rt, cases) {
        let mut tally = Tally::new();
        let passed = compare_each(rt, cases, image, library, run, &mut tally);
        total(rt, &tally, passed);
    }
}
