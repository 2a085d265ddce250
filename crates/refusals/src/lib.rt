// The refusals of all calls, each with its number (docs/SPECIFICATION.md, 6). A call that refuses answers one of these;
// a call for C answers its number.
#![tactic(auto)]

ghost use Rattle.std.specs.Prelude.{◌≡◌};
ghost use Rattle.refusals.specs.Refusals.{number, refusal_of};

// Why a call refuses.
#[derive(Clone, Copy, Debug, PartialEq, Eq)]
pub enum Refusal {
    OutputTooShort = 101,
    HeadCut = 102,
    WrongTag = 103,
    WrongLength = 104,
    BodyCut = 105,
    WrongDegree = 106,
    CurveCoefficient = 107,
    DrawingNumber = 108,
    CountTooHigh = 109,
    NotAnElement = 110,
    NotAClass = 111,
    BytesRemain = 112,
    UndoAtZero = 113,
    CommitAtLimit = 114,
    StampTooLarge = 115,
    StampWithoutClass = 116,
    ZeroHasNoInverse = 117,
    MultipleTooLarge = 118,
    TooManyHalvings = 119,
    ReleasedTooHigh = 120,
    UndoAtReleased = 121,
    WrongPair = 122,
    NoSuchOperation = 123,
    OperationHeld = 124,
}

impl Refusal {
    // The number by which a call for C tells it.
    pub fn number(self) -> u32
        ensures { result ≡ number self }
    {
        self as u32
    }
}

// The number of a refusal, and 0 of an acceptance.
pub fn refusal_number<T: Copy>(answer: Result<T, Refusal>) -> u32
    ensures { result ≡ refusal_of answer }
{
    match answer {
        Ok(_) => 0,
        Err(refusal) => refusal.number(),
    }
}
