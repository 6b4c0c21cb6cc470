// What a refusal means, in words.
#![tactic(auto)]

use record::refusal::Refusal;
use std::io::Write;
use std::{fmt, io};

// A refusal as a program tells it: its number, and its meaning.
#[derive(Drop)]
struct Meaning(Refusal);

impl fmt::Display for Meaning {
    fn fmt<W: fmt::Write>(&self, f: &mut fmt::Formatter<W>) -> fmt::Result {
        let number = u8::from(self.0);
        // Those of a single command and of a log do not arise in a program.
        let words = match self.0 {
            Refusal::CardLength => "the card has not 2,189 bytes",
            Refusal::SessionLength => "the session has not 2,197 to 65,536 bytes",
            Refusal::TooManyRecords => "more than 4,096 records",
            Refusal::FuseByte => "the card's fuse byte is not 7, 6, 4 or 0",
            Refusal::StagingBytes =>
                "the card's staging flag is neither idle nor ready, or a ready write is beyond zone 7 or eight bytes",
            Refusal::TitleLength => "the title is longer than 255 bytes",
            Refusal::UnknownKind => "a record of an unknown kind",
            Refusal::FieldOutOfRange => "a record with a field out of range",
            Refusal::CutShort => "a record is cut short",
            Refusal::BytesLeft => "bytes are left behind the last record",
            Refusal::NoStart =>
                "from no place behind the card are the bytes before the trailer 1 to 4,096 records",
            _ => "not a refusal of this program",
        };
        write!(f, "refused {number}: {words}")
    }
}

// A line with a program's name, the number and its meaning.
pub fn print_refusal<W: Write>(to: &mut W, name: &[u8], why: Refusal) -> io::Result<()> {
    to.write_all(name)?;
    writeln!(to, ": {}", Meaning(why))
}

// What a program has made, to its output; a line tells where that fails.
pub fn write_whole<W: Write, E: Write>(
    output: &mut W,
    errors: &mut E,
    bytes: &[u8],
) -> io::Result<()> {
    output
        .write_all(bytes)
        .or_else(|why| writeln!(errors, "standard output: {why}"))
}
