// How examples are shown, on standard output.
use image::fixup::{Kind, Rules, Target};

// No stretch is withheld.
pub const NOTHING: [u64; 0] = [];

pub fn say(rt: &impl Print, text: &[u8]) {
    let _ = rt.write_all(text);
}

pub fn number(rt: &impl Print, n: usize) {
    say(rt, b" ");
    let _ = rt.print(n);
}

pub fn byte(rt: &impl Print, x: u8) {
    number(rt, x as usize);
}

pub fn answer(rt: &impl Print, yes: bool) {
    if yes {
        say(rt, b" yes");
    } else {
        say(rt, b" no");
    }
}

// All matches, ascending; more than 16 are not shown.
fn each_match(rt: &impl Print, image: &[u8], s: &[u64], bytes: &[u8], masks: &[u8]) {
    let mut at: usize = 0;
    for _ in 0..16 {
        match image::next_match(image, s, bytes, masks, at) {
            Some(p) => {
                number(rt, p);
                at = p.wrapping_add(1);
            }
            None => {
                say(rt, b"\n");
                return;
            }
        }
    }
    say(rt, b" and more\n");
}

pub fn matches(rt: &impl Print, text: &[u8], image: &[u8], s: &[u64], bytes: &[u8], masks: &[u8]) {
    say(rt, text);
    each_match(rt, image, s, bytes, masks);
}

// Where a reference with no offset leads.
pub fn target(rt: &impl Print, image: &[u8], s: &[u64], rules: Rules, pos: usize, kind: Kind) {
    match image::fixup::find_target(image, s, rules, pos, kind, 0) {
        Target::At(t) => {
            let _ = print!(rt; " 0x{t:04x}");
        }
        Target::PastEnd => {
            say(rt, b" past the end");
        }
        Target::Withheld => {
            say(rt, b" withheld");
        }
    }
}

fn by_both_rules(rt: &impl Print, image: &[u8; 2048], pos: usize, kind: Kind) {
    target(rt, image, &NOTHING, Rules::AsFound, pos, kind);
    target(rt, image, &NOTHING, Rules::Documented, pos, kind);
    say(rt, b"\n");
}

// Two bytes at a place of an image that is zero elsewhere, read by both rule sets.
pub fn both_rules(rt: &impl Print, text: &[u8], pos: usize, kind: Kind, a: u8, b: u8) {
    let mut image = [0u8; 2048];
    if pos < 2047 {
        image[pos] = a;
        image[pos + 1] = b;
    }
    say(rt, text);
    by_both_rules(rt, &image, pos, kind);
}
