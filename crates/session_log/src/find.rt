// An answer found in a log.
ghost use Rattle.std.specs.Prelude.{◌≡◌};
ghost use Rattle.model.specs.Log.{zoned};
ghost use Rattle.model.specs.LogCheck as model;
ghost use Rattle.session_log.specs.Found.{found_of, fetched_of, Within};

use crate::check::{Place, scan};
use access::rights::is_fuse_byte;
use record::number;
use record::refusal::Refusal;
use sizes::{FUSES, LEAST_LOG, MOST_RECORDS, TRAILER};
use staging::staging_fits;

// Whether the trailer and the card before it are those of a log.
fn trailer_ok(log: &[u8]) -> bool
    ensures { result ≡ model.trailer_ok zoned log.now }
{
    let length = log.len();
    if length < LEAST_LOG {
        return false;
    }
    if log[length - 2] != b'L' || log[length - 1] != b'P' {
        return false;
    }
    if MOST_RECORDS < number::get::<2>(log, length - 4) {
        return false;
    }
    let offset = number::get::<4>(log, length - TRAILER);
    if offset + LEAST_LOG != length {
        return false;
    }
    is_fuse_byte(log[offset + FUSES]) && staging_fits(log, offset)
}

// A refusal, or where an answer lies, and how many entry headers were read for it: with some refusals there are headers too.
#[derive(Clone, Copy, Debug, PartialEq, Eq)]
pub struct Fetched {
    pub found: Result<Place, Refusal>,
    pub headers: usize,
}

const NO_LOG: Fetched = Fetched {
    found: Err(Refusal::NotALog),
    headers: 0,
};

// Where answer number lies, from 0. The whole log is checked for every number, in the pass that finds the answer.
pub fn fetch(log: &[u8], number: usize) -> Fetched
    ensures { fetched_of result ≡ model.fetch log.now number }
{
    if !trailer_ok(log) {
        return NO_LOG;
    }
    let length = log.len();
    let count = number::get::<2>(log, length - 4);
    let end = number::get::<4>(log, length - TRAILER);
    let Ok(entries) = scan(log, count, end, number) else {
        return NO_LOG;
    };
    Fetched {
        found: entries.place.ok_or(Refusal::NoSuchAnswer),
        headers: entries.headers,
    }
}

// The part of the log that was found; the empty part where it is a refusal.
fn part_found(log: &[u8], found: Result<Place, Refusal>) -> &[u8]
    requires { Within log.now (found_of found) }
    ensures { result.now ≡ model.answer_in log.now (found_of found) }
{
    match found {
        Ok(place) => &log[place.from..place.from + place.length],
        Err(_) => &log[..0],
    }
}

// An answer read from a log: a refusal or where it lies, with the headers read, and its bytes, a part of the log; no bytes where it is refused.
#[derive(Clone, Copy, Debug, PartialEq, Eq)]
pub struct Answer<'a> {
    pub fetched: Fetched,
    pub bytes: &'a [u8],
}

// Reads answer number, from 0. An answer without bytes is told from a refusal by what is found.
pub fn read_answer<'a>(log: &'a [u8], number: usize) -> Answer<'a>
    ensures { (fetched_of result.fetched ≡ model.fetch log.now number)
        × (result.bytes.now ≡ model.answer_in log.now (found_of result.fetched.found)) }
{
    let fetched = fetch(log, number);
    Answer {
        fetched,
        bytes: part_found(log, fetched.found),
    }
}
