// The session writer: a session from a card, a title, records laid end to end and their count.
#![tactic(auto)]

ghost use Rattle.std.specs.Prelude.{◌≡◌};
ghost use Rattle.model.specs.Writer.{parts, records_refusal, parts_refusal, write_session};
ghost use Rattle.record.specs.RefusalNumber.{outcome_number};
ghost use Rattle.writer.specs.Writing.{written_of};

use access::rights::is_fuse_byte;
use record::decoder::measure;
use record::refusal::Refusal;
use sizes::{CARD, FUSES, GREATEST_SESSION, LEAST_SESSION, MOST_RECORDS, MOST_TITLE, TRAILER};
use slices::copy;
use staging::staging_fits;
use trailer::put;

// Records laid end to end: count of them, and nothing behind the last.
pub fn records_refusal(records: &[u8], count: usize) -> Result<(), Refusal>
    ensures { outcome_number result ≡ records_refusal count records.now }
{
    let mut rest = records;
    for _ in 0..count {
        let lengths = measure(rest)?;
        rest = &rest[lengths.record..];
    }
    if !rest.is_empty() {
        return Err(Refusal::BytesLeft);
    }
    Ok(())
}

// All that is refused but for want of space: 11, 1, 4, 5, 16, 15, the records in turn, 9.
// The four parts stay apart, as the C interface passes them: a struct for two functions is no plainer.
#[tactic(auto, unfolding(model::specs::Writer::parts_refusal), using(laws::specs::WriterLaws::session_length_lem))]
pub fn parts_refusal(card: &[u8], title: &[u8], records: &[u8], count: usize) -> Result<(), Refusal>
    ensures { outcome_number result ≡ parts_refusal (parts card.now title.now records.now count) }
{
    if card.len() != CARD {
        return Err(Refusal::CardLength);
    }
    let room = GREATEST_SESSION - LEAST_SESSION;
    if room < title.len().saturating_add(records.len()) {
        return Err(Refusal::SessionLength);
    }
    if MOST_RECORDS < count {
        return Err(Refusal::TooManyRecords);
    }
    if !is_fuse_byte(card[FUSES]) {
        return Err(Refusal::FuseByte);
    }
    if !staging_fits(card, 0) {
        return Err(Refusal::StagingBytes);
    }
    if MOST_TITLE < title.len() {
        return Err(Refusal::TitleLength);
    }
    records_refusal(records, count)
}

// The session at the front of a space, and its length. A refusal changes nothing.
pub fn write_session(
    card: &[u8],
    title: &[u8],
    records: &[u8],
    count: usize,
    session: &mut [u8],
) -> Result<usize, Refusal>
    ensures { written_of result session.new
        ≡ write_session (parts card.now title.now records.now count) session.old }
{
    parts_refusal(card, title, records, count)?;
    let start = CARD + title.len();
    let end = start + records.len();
    let size = end + TRAILER;
    if session.len() < size {
        return Err(Refusal::NoSpace);
    }
    copy(session, 0, card, 0, CARD);
    copy(session, CARD, title, 0, title.len());
    copy(session, start, records, 0, records.len());
    put(session, end, start, count, 83, 69);
    Ok(size)
}
