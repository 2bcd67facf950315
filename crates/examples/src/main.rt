// Document 01's P1 to P14 and jumps of the MCS-51 manual, run on the functions that they are about. The same values are proved of the definition
// (crates/run/specs/Examples.antt).
#![tactic(auto)]

mod failed;
mod show;

use crate::show::{NOTHING, answer, both_rules, byte, matches, number, say, target};
use describe::NoRoom;
use image::fixup::{Kind, Rules};
use lent::part::Part;
use omf51::{Fixup, ModuleId};

// P1 to P5 and P14.
fn patterns(rt: &impl Print) {
    let image = b"\x41\x42\x43\x41\x00\x43";
    matches(rt, b"P1", b"\x07\x08", &NOTHING, b"", b"");
    matches(rt, b"P2", b"", &NOTHING, b"", b"");
    matches(
        rt,
        b"P3",
        b"\x07\x08",
        &NOTHING,
        b"\x07\x08\x09",
        b"\xff\xff\xff",
    );
    matches(rt, b"P4", image, &NOTHING, b"\x41\x00\x43", b"\xff\x00\xff");
    say(rt, b"P5");
    answer(rt, image::stands_at(b"\xe1", b"\x01", b"\x1f", 0));
    answer(rt, image::stands_at(b"\x11", b"\x01", b"\x1f", 0));
    say(rt, b"\n");
    matches(rt, b"P14", image, &[4, 1], b"\x41\x00\x43", b"\xff\x00\xff");
}

// Several stretches (W-207), each a start and a length: between two that do not meet there is a gap, in which a pattern
// matches; two that overlap or meet, and one cut in two, are one cover.
fn stretches(rt: &impl Print) {
    let image = b"\x41\x42\x43\x41\x00\x43";
    matches(rt, b"Gap", image, &[0, 2, 3, 2], b"\x43", b"\xff");
    matches(rt, b"Overlap", image, &[1, 2, 0, 2], b"\x43", b"\xff");
    matches(rt, b"Meet", image, &[0, 2, 2, 1], b"\x43", b"\xff");
    matches(rt, b"Last", image, &[0, 1, 2, 0, 5, 1], b"\x43", b"\xff");
}

// P6 to P10.
fn targets(rt: &impl Print) {
    both_rules(rt, b"P6", 0x0100, Kind::Inblock, 0xe1, 0x34);
    both_rules(rt, b"P7", 0x07fe, Kind::Inblock, 0x01, 0x34);
    both_rules(rt, b"P8", 0x0010, Kind::Relative, 0xfe, 0);
    both_rules(rt, b"P9", 0, Kind::Relative, 0xfe, 0);
    say(rt, b"P10");
    target(
        rt,
        b"\x00\x00\x00\x12",
        &NOTHING,
        Rules::AsFound,
        3,
        Kind::Word,
    );
    target(
        rt,
        b"\x00\x00\x00\x12\x34",
        &NOTHING,
        Rules::AsFound,
        3,
        Kind::Word,
    );
    say(rt, b"\n");
}

// Why a reference has no target (W-208): a withheld byte; a withheld last byte, which a Word also passes.
fn reasons(rt: &impl Print) {
    let last = [1, 1];
    say(rt, b"Withheld");
    target(rt, b"\x12\x34", &last, Rules::Documented, 0, Kind::Relative);
    target(rt, b"\x12\x34", &last, Rules::Documented, 0, Kind::Word);
    target(rt, b"\x12\x34", &last, Rules::Documented, 1, Kind::Relative);
    target(rt, b"\x12\x34", &last, Rules::Documented, 1, Kind::Word);
    say(rt, b"\n");
}

// The manual's own: AJMP at 0345h to 0123h, ACALL at 0123h to 0345h, SJMP at 0100h to 0123h, LJMP at 0123h to 1234h.
fn manual(rt: &impl Print) {
    both_rules(rt, b"AJMP", 0x0345, Kind::Inblock, 0x21, 0x23);
    both_rules(rt, b"ACALL", 0x0123, Kind::Inblock, 0x71, 0x45);
    both_rules(rt, b"SJMP", 0x0101, Kind::Relative, 0x21, 0);
    both_rules(rt, b"LJMP", 0x0124, Kind::Word, 0x12, 0x34);
}

fn sizes(rt: &impl Print) {
    say(rt, b"P11");
    number(rt, omf51::segment_size(0x80, 5));
    number(rt, omf51::segment_size(0, 0));
    number(rt, omf51::segment_size(0, 0xffff));
    say(rt, b"\n");
}

fn masks(rt: &impl Print) {
    let word = Fixup {
        location: 2,
        kind: 4,
        block: 1,
        id: ModuleId(1),
        offset: 0,
    };
    let mut m = [255u8; 3];
    segments::masks::mask(&mut m, word);
    say(rt, b"P12");
    byte(rt, m[0]);
    byte(rt, m[1]);
    byte(rt, m[2]);
    say(rt, b"\n");
}

// P13.
fn description(rt: &impl Print, name: &[u8]) {
    let mut out = [0u8; 80];
    match describe::entry::describe(name, &mut out) {
        Ok(Some(n)) => say(rt, lent::names::name(&out, Part { at: 0, len: n })),
        Ok(None) => say(rt, b"no description"),
        Err(NoRoom) => say(rt, b"no room"),
    }
}

fn main(rt: HostRuntime) {
    patterns(&rt);
    stretches(&rt);
    targets(&rt);
    reasons(&rt);
    failed::first_failures(&rt);
    sizes(&rt);
    masks(&rt);
    say(&rt, b"P13 ");
    description(&rt, b"?C?CLDIDATA");
    say(&rt, b"; ");
    description(&rt, b"?C?CLDIXDATA");
    say(&rt, b"\n");
    manual(&rt);
}
