// The search in its plain form: every start in turn, and from each the records one after the other.
ghost use Rattle.std.specs.Prelude.{◌≡◌};
ghost use Rattle.model.specs.Mender as model;
ghost use Rattle.mender.specs.Mending.{found_by, mended_of};

use crate::{Found, mend_with};
use reader::records_end;
use record::decoder::measure;
use record::refusal::Refusal;
use sizes::{CARD, MOST_RECORDS};

// At the first start that parses it leaves both loops. It can take seconds.
pub fn smallest_start(session: &[u8]) -> Option<Found>
    ensures { found_by result ≡ model.smallest_start session.now }
{
    let end = records_end(session);
    let mut found = None;
    'starts: for start in CARD..end {
        let mut at = start;
        for count in 1..=MOST_RECORDS {
            let Ok(lengths) = measure(&session[at..end]) else {
                break;
            };
            at += lengths.record;
            if at == end {
                found = Some(Found { start, count });
                break 'starts;
            }
        }
    }
    found
}

// A session mended so. A refusal changes nothing.
pub fn mend_by_search(session: &mut [u8]) -> Result<Found, Refusal>
    ensures { mended_of result session.new ≡ model.mend session.old }
{
    mend_with(session, smallest_start)
}
