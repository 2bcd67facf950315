// What is written on standard output. Cases are numbered from 1 on.
use crate::header::recorded;
use crate::tally::Tally;

pub fn say(rt: &impl Print, text: &[u8]) {
    let _ = rt.write_all(text);
}

pub fn say_number(rt: &impl Print, text: &[u8], n: u64) {
    say(rt, text);
    let _ = rt.print(n);
}

fn case_after(rt: &impl Print, passed: u64) {
    say_number(rt, b"case ", passed.wrapping_add(1));
}

// The numbers of a case, as recorded and as they came.
pub fn differ(rt: &impl Print, passed: u64, header: &[u8], came: &[u64]) {
    case_after(rt, passed);
    say(rt, b", recorded and came:");
    for (i, n) in came.iter().enumerate() {
        say_number(rt, b" ", recorded(header, i));
        say_number(rt, b"/", *n);
    }
    say(rt, b"\n");
}

pub fn cut_short(rt: &impl Print, passed: u64) {
    case_after(rt, passed);
    say(rt, b" is cut short\n");
}

// The numbers that came up.
fn refusals(rt: &impl Print, tally: &Tally) {
    for (number, n) in tally.by_number.iter().enumerate().skip(1) {
        if *n != 0 {
            say_number(rt, b", refused with ", number as u64);
            say_number(rt, b" ", *n);
        }
    }
}

// How many of the cases that passed agree, and what these come to; `agree` has the words between the two.
pub fn outcomes(rt: &impl Print, tally: &Tally, passed: u64, agree: &[u8]) {
    say_number(rt, b"", tally.agreed());
    say_number(rt, b" of ", passed);
    say_number(rt, agree, tally.by_number[0]);
    refusals(rt, tally);
}

// The same of whole runs.
pub fn total(rt: &impl Print, tally: &Tally, passed: u64) {
    outcomes(rt, tally, passed, b" recorded runs agree: done ");
    say_number(rt, b"; ", tally.own);
    say_number(rt, b" are the Rust's own; lines ", tally.lines);
    say(rt, b"\n");
}
