// The search in one pass from the end: the counts of records from the last places on are kept in a table, so that one record tells the next
// count.
ghost use Rattle.std.specs.Prelude.{◌≡◌, ◌≤◌, length};
ghost use Rattle.model.specs.Reader.{records_end};
ghost use Rattle.model.specs.Mender as model;
ghost use Rattle.mender.specs.Mending.{found_by, followed, tabled};

use crate::Found;
use reader::records_end;
use record::decoder::measure;
use sizes::{CARD, MOST_RECORDS};

// How many counts are kept: more than a record has bytes.
const WINDOW: usize = 32;

// The count with a record more: none where there are as many as there may be.
fn one_more(others: u16) -> Option<u16>
    ensures { result ≡ followed others }
{
    if MOST_RECORDS <= others as usize {
        return None;
    }
    Some(others + 1)
}

// The count from a place on, from the counts behind it.
fn count_at(session: &[u8], at: usize, end: usize, counts: &[Option<u16>; WINDOW]) -> Option<u16>
    requires { (at ≤ end) × (end ≡ records_end (length session.now)) }
    ensures { result ≡ tabled session.now counts.now at }
{
    let Ok(lengths) = measure(&session[at..end]) else {
        return None;
    };
    let next = at + lengths.record;
    if next == end {
        return Some(1);
    }
    one_more(counts[next % WINDOW]?)
}

// helper: from the last place down to the card's end; the smallest start is the last that is met.
pub fn smallest_start(session: &[u8]) -> Option<Found>
    ensures { found_by result ≡ model.smallest_start session.now }
{
    let mut counts = [None; WINDOW];
    let end = records_end(session);
    let mut found = None;
    for start in (CARD..end).rev() {
        let count = count_at(session, start, end, &counts);
        counts[start % WINDOW] = count;
        if let Some(count) = count {
            found = Some(Found {
                start,
                count: count as usize,
            });
        }
    }
    found
}
