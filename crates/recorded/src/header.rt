// The header of a case: flags, how many settings are told, room for the settings and for a depth, the lengths of the eight lent lists, and the recorded answer
// of 18 numbers.
ghost use Rattle.std.specs.Prelude.{◌≤◌};

use crate::numbers::{eight_at, four_at};
use image::cover::{Stretches, no_stretches, one_more};
use run::Settings;

const CHECK: u8 = 1;

const SKIP: u8 = 2;

const SCENE: u8 = 4;

const OWN: u8 = 8;

const DEPTH: u8 = 16;

// The rule set, the minimum, the skip amount, the start and the length of a stretch, the edition, and up to 16 further stretches: what is not told is 0, and
// the edition 1; a stretch whose start is not told is none.
pub const SETTINGS: usize = 38;

// Where among them the start of the first stretch stands, the edition, and the further stretches.
const START: usize = 3;

const EDITION: usize = 5;

const FURTHER: usize = 6;

pub const SETTINGS_AT: usize = 2;

// Behind the room for the settings: a depth, 8 lengths and the answer.
pub const DEPTH_AT: usize = 306;

pub const LENT_AT: usize = 314;

const ANSWER_AT: usize = 346;

pub const SIZE: usize = 418;

const ANSWER: usize = 18;

pub fn no_header() -> [u8; SIZE] {
    [0; SIZE]
}

fn byte_at(header: &[u8], i: usize) -> u8 {
    header.get(i).copied().unwrap_or(0)
}

fn has(header: &[u8], flag: u8) -> bool {
    byte_at(header, 0) & flag != 0
}

// Whether image and library stand behind it; else they are those of the case before.
pub fn has_scene(header: &[u8]) -> bool {
    has(header, SCENE)
}

// Whether what is recorded is the Rust's own answer.
pub fn is_own(header: &[u8]) -> bool {
    has(header, OWN)
}

// Whether a depth follows the settings; else the flag for checking tells it.
pub fn has_depth(header: &[u8]) -> bool {
    has(header, DEPTH)
}

pub fn told_settings(header: &[u8]) -> usize {
    usize::from(byte_at(header, 1))
}

fn setting(header: &[u8], i: usize) -> u64 {
    if SETTINGS <= i {
        return 0;
    }
    eight_at(header, SETTINGS_AT + i * 8)
}

fn skip_of(header: &[u8]) -> Option<usize> {
    has(header, SKIP).then(|| setting(header, 2) as usize)
}

fn edition_of(header: &[u8]) -> u64 {
    if told_settings(header) <= EDITION {
        return 1;
    }
    setting(header, EDITION)
}

// Checking off is depth 0, and on is 1.
fn depth_of(header: &[u8]) -> u64 {
    if has_depth(header) {
        return eight_at(header, DEPTH_AT);
    }
    if has(header, CHECK) {
        return 1;
    }
    0
}

fn withheld_by(header: &[u8]) -> Stretches {
    let told = told_settings(header);
    let mut w = no_stretches();
    if START < told {
        w = one_more(w, setting(header, START), setting(header, START + 1));
    }
    for i in (FURTHER..told.min(SETTINGS)).step_by(2) {
        w = one_more(w, setting(header, i), setting(header, i + 1));
    }
    w
}

pub fn settings_of(header: &[u8]) -> Settings {
    Settings {
        rules: setting(header, 0),
        edition: edition_of(header),
        depth: depth_of(header),
        minimum: setting(header, 1) as usize,
        skip: skip_of(header),
        withheld: withheld_by(header),
    }
}

// The length of a lent list, by its number from 0 to 7.
fn lent_length(header: &[u8], i: usize) -> usize {
    if 8 <= i {
        return 0;
    }
    four_at(header, LENT_AT + i * 4) as usize
}

// The same, and no more than there is room for.
pub fn lent_within(header: &[u8], i: usize, room: usize) -> usize
    ensures { result ≤ room }
{
    lent_length(header, i).min(room)
}

// A number of the recorded answer.
pub fn recorded(header: &[u8], i: usize) -> u64 {
    if ANSWER <= i {
        return 0;
    }
    four_at(header, ANSWER_AT + i * 4)
}
