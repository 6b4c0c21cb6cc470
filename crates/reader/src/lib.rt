// Records read from a session: a reader, its place, and the record there.
#![tactic(auto)]

ghost use Rattle.std.specs.Prelude.{◌≡◌, length, IfOk, IfErr};
ghost use Rattle.model.specs.Reader.{records_end, part_at, next_of};
ghost use Rattle.model.specs.Call.{refused};
ghost use Rattle.record.specs.RefusalNumber.{refusal_number};
ghost use Rattle.record.specs.DecodedRecord.{decoded_of, measured_of, measure_of};

use record::decoder::{Decoded, Lengths, decode, measure};
use record::refusal::Refusal;
use sizes::TRAILER;

// Where the records of a session end: at its trailer, or at 0 where it is shorter than one.
pub fn records_end(session: &[u8]) -> usize
    ensures { result ≡ records_end (length session.now) }
{
    session.len().saturating_sub(TRAILER)
}

// The part of a session from a place on; at or past the end there is no kind byte.
fn part_at(session: &[u8], at: usize) -> Result<&[u8], Refusal>
    ensures part { IfOk result (λ part. part.now ≡ part_at session.now at) }
    ensures past { IfErr result (λ why. refused (refusal_number why) ≡ next_of session.now at) }
{
    let end = records_end(session);
    if end <= at {
        return Err(Refusal::CutShort);
    }
    Ok(&session[at..end])
}

// The record at a place of a session.
pub fn next_at(session: &[u8], at: usize) -> Result<Decoded, Refusal>
    ensures { decoded_of (part_at session.now at) result ≡ next_of session.now at }
{
    decode(part_at(session, at)?)
}

// The lengths of that record.
pub fn measure_from(session: &[u8], at: usize) -> Result<Lengths, Refusal>
    ensures { measured_of result ≡ measure_of (next_of session.now at) }
{
    measure(part_at(session, at)?)
}

// A place in a session's bytes, from which records are read.
#[derive(Clone, Copy, Debug, PartialEq, Eq)]
pub struct Reader<'a> {
    pub session: &'a [u8],
    pub at: usize,
}

impl<'a> Reader<'a> {
    pub fn new(session: &'a [u8], at: usize) -> Reader<'a>
        ensures { (result.session ≡ session.entry) × (result.at ≡ at) }
    {
        Reader { session, at }
    }

    // The next record.
    pub fn next(self) -> Result<Decoded, Refusal>
        ensures { decoded_of (part_at self.entry.session.now self.entry.at) result ≡ next_of self.entry.session.now self.entry.at }
    {
        next_at(self.session, self.at)
    }

    // Its lengths.
    pub fn measure(self) -> Result<Lengths, Refusal>
        ensures { measured_of result ≡ measure_of (next_of self.entry.session.now self.entry.at) }
    {
        measure_from(self.session, self.at)
    }
}

// The lengths of the record at a place, by a reader there.
pub fn measure_at(session: &[u8], at: usize) -> Result<Lengths, Refusal>
    ensures { measured_of result ≡ measure_of (next_of session.now at) }
{
    Reader::new(session, at).measure()
}
