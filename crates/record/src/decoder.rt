// A record at the front of some bytes: its kind, its fixed fields, its data behind them.
ghost use Rattle.std.specs.Prelude.{◌≡◌, ◌≤◌, true, get_or};
ghost use Rattle.model.specs.Record.{known};
ghost use Rattle.model.specs.Record as model;
ghost use Rattle.record.specs.DecodedRecord.{decoded_of, record_of, head_of, measured_of, measure_of};

use crate::refusal::Refusal;
use access::volatile::Zone;
use kinds::kind::Kind;
use kinds::read_count;

// A record without its data bytes, which follow its fixed fields up to the record's end.
#[derive(Clone, Copy, Debug, PartialEq, Eq)]
pub enum Record {
    PowerCycle,
    Reset,
    Select(Zone),
    // An address and how many bytes.
    ReadZone(u8, u16),
    WriteZone(u8),
    ReadConfiguration(u8, u8),
    WriteConfiguration(u8),
    ReadFuses,
    WriteFuses,
    // A selector.
    VerifyPassword(u8),
    BeginAuthentication,
    // The verdict.
    VerifyAuthentication(bool),
    // Milliseconds.
    Wait(u8),
    Poll,
    // An address.
    WriteStaged(u8),
    // After how many cell writes, and a junk byte.
    Arm(u8, u8),
}

// A record and its length.
#[derive(Clone, Copy, Debug, PartialEq, Eq)]
pub struct Decoded {
    pub record: Record,
    pub length: usize,
}

// The length of a record's answer in full, and the record's own.
#[derive(Clone, Copy, Debug, PartialEq, Eq)]
pub struct Lengths {
    pub answer: u16,
    pub record: usize,
}

// The kind byte and the two behind it, which are the fixed fields where the kind has them.
#[derive(Clone, Copy, Debug, PartialEq, Eq)]
pub struct Head {
    pub kind: u8,
    pub a: u8,
    pub n: u8,
}

impl Head {
    ghost use Rattle.kinds.specs.KindNumber.{kind_number};

    // helper: the kind of a record that was checked.
    pub fn kind(self) -> Kind
        requires { known self.kind ≡ true }
        ensures { kind_number result ≡ self.kind }
    {
        Kind::try_from(self.kind).unwrap()
    }
}

// The record of a known kind with its fixed fields.
pub fn made(kind: u8, a: u8, n: u8) -> Record
    ensures { result ≡ record_of kind a n }
{
    match kind {
        1 => Record::PowerCycle,
        2 => Record::Reset,
        3 => Record::Select(Zone(a)),
        4 => Record::ReadZone(a, read_count(n)),
        5 => Record::WriteZone(a),
        6 => Record::ReadConfiguration(a, n),
        7 => Record::WriteConfiguration(a),
        8 => Record::ReadFuses,
        9 => Record::WriteFuses,
        10 => Record::VerifyPassword(a),
        11 => Record::BeginAuthentication,
        12 => Record::VerifyAuthentication(a == 1),
        13 => Record::Wait(a),
        14 => Record::Poll,
        15 => Record::WriteStaged(a),
        _ => Record::Arm(a, n),
    }
}

// A byte of a slice, or 0 past its end.
fn byte_at(part: &[u8], at: usize) -> u8
    ensures { result ≡ get_or part.now at 0 }
{
    part.get(at).copied().unwrap_or(0)
}

// The first three bytes of a part.
pub fn head_of(part: &[u8]) -> Head
    ensures { result ≡ head_of part.now }
{
    Head {
        kind: byte_at(part, 0),
        a: byte_at(part, 1),
        n: byte_at(part, 2),
    }
}

// The lengths of the record at the front of a part that begins at its kind byte.
#[inline(always)]
pub fn measure(part: &[u8]) -> Result<Lengths, Refusal>
    ensures { measured_of result ≡ measure_of (model.decode part.now) }
{
    let Some(&byte) = part.first() else {
        return Err(Refusal::CutShort);
    };
    let kind = Kind::try_from(byte)?;
    let start = 1 + kind.fixed_fields();
    if part.len() < start {
        return Err(Refusal::CutShort);
    }
    let a = byte_at(part, 1);
    let n = byte_at(part, 2);
    if !kind.in_range(a, n) {
        return Err(Refusal::FieldOutOfRange);
    }
    let end = kind.record_length(n);
    if part.len() < end {
        return Err(Refusal::CutShort);
    }
    Ok(Lengths {
        answer: kind.answer_length(n),
        record: end,
    })
}

// The record at the front of such a part.
pub fn decode(part: &[u8]) -> Result<Decoded, Refusal>
    ensures { decoded_of part.now result ≡ model.decode part.now }
{
    let lengths = measure(part)?;
    let head = head_of(part);
    Ok(Decoded {
        record: made(head.kind, head.a, head.n),
        length: lengths.record,
    })
}
