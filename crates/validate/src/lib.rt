// A session checked whole before anything runs: 1 to 5, 16, the records in turn, 9.
#![tactic(auto)]

ghost use Rattle.std.specs.Prelude.{◌≡◌, ◌≤◌, length};
ghost use Rattle.model.specs.Sizes.{most_records};
ghost use Rattle.model.specs.Reader.{records_end};
ghost use Rattle.model.specs.Session as model;
ghost use Rattle.record.specs.RefusalNumber.{outcome_number};
ghost use Rattle.validate.specs.Check.{checked_of, sized_of, check_of};

use access::rights::is_fuse_byte;
use header::header_length;
use reader::{measure_at, records_end};
use record::number;
use record::refusal::Refusal;
use sizes::{CARD, FUSES, GREATEST_SESSION, LEAST_SESSION, MOST_RECORDS, TRAILER};
use staging::staging_fits;

// What a session says beside its records: its length, its trailer, the start and the count of the records, the fuse byte, the
// staging bytes.
pub fn frame(session: &[u8]) -> Result<(), Refusal>
    ensures { outcome_number result ≡ model.frame session.now }
{
    let length = session.len();
    if !(LEAST_SESSION..=GREATEST_SESSION).contains(&length) {
        return Err(Refusal::SessionLength);
    }
    if !session.ends_with(b"SE") {
        return Err(Refusal::SessionTrailer);
    }
    let start = number::get::<4>(session, length - TRAILER);
    if !(CARD..=length - TRAILER).contains(&start) {
        return Err(Refusal::StartOutOfRange);
    }
    if MOST_RECORDS < number::get::<2>(session, length - 4) {
        return Err(Refusal::TooManyRecords);
    }
    if !is_fuse_byte(session[FUSES]) {
        return Err(Refusal::FuseByte);
    }
    if !staging_fits(session, 0) {
        return Err(Refusal::StagingBytes);
    }
    Ok(())
}

// helper: count records from start on, which are to end where the trailer begins; how long the entries of the log would be if every
// record were answered in full.
pub fn check_records(session: &[u8], start: usize, count: usize) -> Result<usize, Refusal>
    requires { count ≤ most_records }
    ensures { checked_of result ≡ sized_of (records_end (length session.now)) (model.read_from count session.now start) }
{
    let mut at = start;
    let mut entries = 0;
    for _ in 0..count {
        let lengths = measure_at(session, at)?;
        entries += header_length(session[at]) + lengths.answer as usize;
        at += lengths.record;
    }
    if at != records_end(session) {
        return Err(Refusal::BytesLeft);
    }
    Ok(entries)
}

// The whole session: a refusal, or that length.
pub fn check(session: &[u8]) -> Result<usize, Refusal>
    ensures { checked_of result ≡ check_of session.now }
{
    frame(session)?;
    let length = session.len();
    check_records(
        session,
        number::get::<4>(session, length - TRAILER),
        number::get::<2>(session, length - 4),
    )
}
