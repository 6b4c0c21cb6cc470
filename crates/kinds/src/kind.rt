// The kinds of records.
ghost use Rattle.std.specs.Prelude.{◌≡◌};
ghost use Rattle.kinds.specs.KindNumber.{kind_number, Decodes};

// In the order of their numbers, from 1.
#[derive(Clone, Copy, Debug, PartialEq, Eq)]
pub enum Kind {
    PowerCycle = 1,
    Reset,
    Select,
    ReadZone,
    WriteZone,
    ReadConfiguration,
    WriteConfiguration,
    ReadFuses,
    WriteFuses,
    VerifyPassword,
    BeginAuthentication,
    VerifyAuthentication,
    Wait,
    Poll,
    WriteStaged,
    Arm,
}

// What a byte is that is the number of no kind.
#[derive(Clone, Copy, Debug, PartialEq, Eq)]
pub struct UnknownKind;

impl TryFrom<u8> for Kind {
    type Error = UnknownKind;

    ghost try_from_gives = { Decodes };

    fn try_from(byte: u8) -> Result<Kind, UnknownKind> {
        match byte {
            1 => Ok(Kind::PowerCycle),
            2 => Ok(Kind::Reset),
            3 => Ok(Kind::Select),
            4 => Ok(Kind::ReadZone),
            5 => Ok(Kind::WriteZone),
            6 => Ok(Kind::ReadConfiguration),
            7 => Ok(Kind::WriteConfiguration),
            8 => Ok(Kind::ReadFuses),
            9 => Ok(Kind::WriteFuses),
            10 => Ok(Kind::VerifyPassword),
            11 => Ok(Kind::BeginAuthentication),
            12 => Ok(Kind::VerifyAuthentication),
            13 => Ok(Kind::Wait),
            14 => Ok(Kind::Poll),
            15 => Ok(Kind::WriteStaged),
            16 => Ok(Kind::Arm),
            _ => Err(UnknownKind),
        }
    }
}

impl From<Kind> for u8 {
    ghost from_gives = { λ kind n. n ≡ kind_number kind };

    fn from(kind: Kind) -> u8 {
        kind as u8
    }
}
