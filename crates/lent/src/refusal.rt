// Why a run has no answer: the refusals of document 01's table, then those that later requests add; specs/Refusals.antt
// gives each refusal its number.
ghost use Rattle.std.specs.Prelude.{◌≡◌};
ghost use Rattle.lent.specs.Refusals.{refusal_number};

// The refusals, each with the number that the caller gets for it.
#[derive(Clone, Copy, Debug, PartialEq, Eq)]
pub enum Refusal {
    RuleSet = 1,
    ImageTooLong = 2,
    LibraryTooLong = 3,
    StretchPastEnd = 4,
    NoModule = 5,
    BodyPastEnd = 6,
    LengthZero = 7,
    NamesDiffer = 8,
    TooFewRows = 9,
    UnknownKind = 10,
    UnknownBlock = 11,
    ContentPastSegment = 12,
    NoKeptSegment = 13,
    WrongSum = 14,
    LeftOver = 15,
    TooManyStretches = 16,
    TooDeep = 17,
    NotBanked = 18,
    OtherEdition = 30,
}

impl From<Refusal> for u8 {
    ghost from_gives = { λ r n. n ≡ refusal_number r };

    fn from(r: Refusal) -> u8 {
        r as u8
    }
}
