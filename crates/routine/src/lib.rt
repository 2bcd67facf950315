// A routine, instruction by instruction, from an address on: where each instruction starts, and where the calls and jumps
// lead. The walk is linear: jumps are shown and not followed.
#![tactic(auto)]

ghost use Rattle.std.specs.Prelude.{◌≡◌};
ghost use Rattle.routine.specs.Outcome.{walk_number, why_number, what_number, target_in};

pub mod step;
pub mod walk;

// Why there is no walk, with the number that the caller gets for it.
#[derive(Clone, Copy, Debug, PartialEq, Eq)]
pub enum WalkRefusal {
    ImageTooLong = 2,
    TooManyStretches = 16,
    StretchPastEnd = 4,
    StartPastEnd = 19,
    NoRoom = 9,
}

// Why a walk stopped, with its number for the caller: behind a return; behind 256 instructions; or
// before an instruction, which is the reserved A5h, or passes the image's end, or touches withheld
// bytes.
#[derive(Clone, Copy, Debug, PartialEq, Eq)]
pub enum Why {
    Return = 0,
    Limit = 1,
    Reserved = 2,
    End = 3,
    Withheld = 4,
}

// What an instruction is: a call or a jump, each with the address to which it leads, or neither.
#[derive(Clone, Copy, Debug, PartialEq, Eq)]
pub enum What {
    Neither,
    Call(u64),
    Jump(u64),
}

impl What {
    // The number in a row: 1 for a call, 2 for a jump, 0 for neither.
    fn number(self) -> u64
        ensures { result ≡ what_number self }
    {
        match self {
            What::Neither => 0,
            What::Call(_) => 1,
            What::Jump(_) => 2,
        }
    }

    // The address in a row: where a call or a jump leads, else 0.
    fn target(self) -> u64
        ensures { result ≡ target_in self }
    {
        match self {
            What::Neither => 0,
            What::Call(target) | What::Jump(target) => target,
        }
    }
}

// An instruction that is shown: where it starts, and what it is.
#[derive(Clone, Copy, Debug, PartialEq, Eq)]
pub struct Row {
    pub address: u64,
    pub what: What,
}

// How many instructions are shown at the front of the lent rows, and why no more are.
#[derive(Clone, Copy, Debug, PartialEq, Eq)]
pub struct Walked {
    pub steps: usize,
    pub why: Why,
}

// A row takes so many numbers.
pub const ROW_WIDTH: usize = 3;

impl From<WalkRefusal> for u8 {
    ghost from_gives = { λ r n. n ≡ walk_number r };

    fn from(r: WalkRefusal) -> u8 {
        r as u8
    }
}

impl From<Why> for u64 {
    ghost from_gives = { λ why n. n ≡ why_number why };

    fn from(why: Why) -> u64 {
        why as u64
    }
}
