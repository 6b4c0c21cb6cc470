// Why an input is refused, and the number of each refusal.
ghost use Rattle.std.specs.Prelude.{◌≡◌};
ghost use Rattle.record.specs.declared.refusal.Refusal.TheVariants.{UnknownKind};
ghost use Rattle.record.specs.RefusalNumber.{refusal_number, outcome_number};

use kinds::kind::UnknownKind;

// In the order of their numbers, from 1.
#[derive(Clone, Copy, Debug, PartialEq, Eq)]
pub enum Refusal {
    SessionLength = 1,
    SessionTrailer,
    StartOutOfRange,
    TooManyRecords,
    FuseByte,
    UnknownKind,
    FieldOutOfRange,
    CutShort,
    BytesLeft,
    NoSpace,
    CardLength,
    StateOutOfRange,
    NotALog,
    NoSuchAnswer,
    TitleLength,
    StagingBytes,
    NoStart,
    BoxLimits,
}

impl From<UnknownKind> for Refusal {
    ghost from_gives = { λ _ why. why ≡ UnknownKind };

    fn from(_: UnknownKind) -> Refusal {
        Refusal::UnknownKind
    }
}

impl From<Refusal> for u8 {
    ghost from_gives = { λ why n. n ≡ refusal_number why };

    fn from(why: Refusal) -> u8 {
        why as u8
    }
}

// The number of the refusal that a call ends with, or 0.
pub fn outcome_number(outcome: Result<(), Refusal>) -> u8
    ensures { result ≡ outcome_number outcome }
{
    match outcome {
        Ok(()) => 0,
        Err(why) => u8::from(why),
    }
}
