// Whether bytes are a log, and where its entries lie.
ghost use Rattle.std.specs.Prelude.{◌≡◌, ◌+◌, ◌≤◌, length};
ghost use Rattle.model.specs.Log as model;
ghost use Rattle.model.specs.Sizes.{most_records};
ghost use Rattle.session_log.specs.Scan.{HeaderRead, Scanned};

use header::names_zone;
use kinds::kind::Kind;
use record::number;

// Whether a kind byte is that of an ignored record: kinds 2 to 15, plus 128.
fn is_ignored_kind(kind: u8) -> bool
    ensures { result ≡ model.ignored_kind kind }
{
    (130..=143).contains(&kind)
}

// Whether an entry can have this kind byte and a response that long.
fn entry_fits(kind: u8, response: usize) -> bool
    ensures { result ≡ model.entry_fits kind response }
{
    match Kind::try_from(kind) {
        Ok(kind) => kind.length_fits(response),
        Err(_) => is_ignored_kind(kind) && response == 0,
    }
}

// Where the response of an entry lies, which ends where the entry does.
#[derive(Clone, Copy, Debug, PartialEq, Eq)]
pub struct Place {
    pub from: usize,
    pub length: usize,
}

// The response of the entry at a place, which is to end by a place; none where no entry stands there. Whether the zone is named is a branch, and
// no length that is added, and the kind is judged last: the place of the next entry waits for neither.
fn read_header(log: &[u8], at: usize, last: usize) -> Option<Place>
    requires { (at ≤ last) × (last + 8 ≤ length log.now) }
    ensures { HeaderRead log.now at last result }
{
    let kind = log[at];
    let length = number::get::<2>(log, at + 1);
    let mut from = at + 3;
    if names_zone(kind) {
        if 7 < log[from] {
            return None;
        }
        from = at + 4;
    }
    if last < from + length {
        return None;
    }
    if !entry_fits(kind, length) {
        return None;
    }
    Some(Place { from, length })
}

// Entries that are all well and end at the card: how many headers were read, and where the response of one of them lies, if it is among them.
#[derive(Clone, Copy, Debug, PartialEq, Eq)]
pub struct Entries {
    pub headers: usize,
    pub place: Option<Place>,
}

// Entries that are not: how many headers were read until that was known.
#[derive(Clone, Copy, Debug, PartialEq, Eq)]
pub struct Unfit {
    pub headers: usize,
}

// helper: one walk over count entries from the front up to end. It reads each header once and keeps the response of the entry with a number on the
// way. The headers are counted as they are read, so by a counter of their own beside the loop's.
pub fn scan(log: &[u8], count: usize, end: usize, number: usize) -> Result<Entries, Unfit>
    requires { (end + 8 ≤ length log.now) × (count ≤ most_records) }
    ensures { Scanned log.now count end number result }
{
    let mut at = 0;
    let mut headers = 0;
    let mut place = None;
    for i in 0..count {
        let header = read_header(log, at, end);
        headers += 1;
        let Some(response) = header else {
            return Err(Unfit { headers });
        };
        if i == number {
            place = Some(response);
        }
        at = response.from + response.length;
    }
    if at != end {
        return Err(Unfit { headers });
    }
    Ok(Entries { headers, place })
}
