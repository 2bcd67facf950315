// How many cases agree, by what they come to, and how many differ.

// A refusal's number is below this.
pub const NUMBERS: usize = 32;

// The cases that agree, by the number that they come to, how many of them are the Rust's own, and how many lines they have; and how many cases differ.
#[derive(Clone, Copy, Debug, PartialEq, Eq)]
pub struct Tally {
    pub by_number: [u64; NUMBERS],
    pub own: u64,
    pub lines: u64,
    pub differing: u64,
}

impl Tally {
    // Before the first case.
    pub fn new() -> Tally {
        Tally {
            by_number: [0; NUMBERS],
            own: 0,
            lines: 0,
            differing: 0,
        }
    }

    // A case more that agrees: its number, how many lines it has, and whether it is the Rust's own.
    pub fn count(&mut self, number: u64, lines: u64, is_own: bool) {
        if let Some(n) = self.by_number.get_mut(number as usize) {
            *n = n.wrapping_add(1);
        }
        self.lines = self.lines.wrapping_add(lines);
        if is_own {
            self.own = self.own.wrapping_add(1);
        }
    }

    pub fn count_differing(&mut self) {
        self.differing = self.differing.wrapping_add(1);
    }

    pub fn agreed(&self) -> u64 {
        self.by_number
            .iter()
            .fold(0, |all: u64, n| all.wrapping_add(*n))
    }
}
