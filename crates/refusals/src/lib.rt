// Why a call is refused: the first question of document 01 that was answered "no".
#![tactic(auto)]

ghost use Rattle.std.specs.Prelude.{◌≡◌};
ghost use Rattle.refusals.specs.Refusals.{number_of, number};

// The questions by number, 1 to 17.
#[derive(Clone, Copy, Debug, PartialEq, Eq)]
pub enum Refusal {
    AreaTooShort = 1,
    NotAShard = 2,
    RoutesUnsound = 3,
    LimitTooHigh = 4,
    StateUnsound = 5,
    MessagesUnsound = 6,
    IdNotAbove = 7,
    CacheFull = 8,
    TransactionOpenOrNone = 9,
    LimitMissing = 10,
    PositionPastEnd = 11,
    ProcessedMissing = 12,
    PartitionMissing = 13,
    OutputFull = 14,
    NotThere = 15,
    OutOfCount = 16,
    Malformed = 17,
}

impl From<Refusal> for u8 {
    ghost from_gives = { λ r n. n ≡ number_of r };

    fn from(refusal: Refusal) -> u8 {
        refusal as u8
    }
}

// What a call tells that answers by number: 0 for done, or the question.
pub fn number<T: Drop>(answer: Result<T, Refusal>) -> u8
    ensures { result ≡ number answer }
{
    match answer {
        Ok(_) => 0,
        Err(refusal) => u8::from(refusal),
    }
}
