// The trailer mender: the smallest start from which the bytes before a lost trailer are records, and the trailer that says so.
#![tactic(auto)]

ghost use Rattle.std.specs.Prelude.{◌≡◌};
ghost use Rattle.std.specs.Fn.{FnReturnsAt};
ghost use Rattle.model.specs.Mender as model;
ghost use Rattle.record.specs.RefusalNumber.{outcome_number};
ghost use Rattle.mender.specs.Mending.{found_by, mended_of};

use access::rights::is_fuse_byte;
use record::refusal::Refusal;
use sizes::{FUSES, GREATEST_SESSION, LEAST_SESSION, TRAILER};
use staging::staging_fits;
use trailer::put;

pub mod search;
pub mod table;

// Where the records begin and how many they are.
#[derive(Clone, Copy, Debug, PartialEq, Eq)]
pub struct Found {
    pub start: usize,
    pub count: usize,
}

// What is refused before the search: 1, 5, 16.
#[tactic(auto, unfolding(model::specs::Mender::untrailed_refusal))]
fn untrailed_refusal(session: &[u8]) -> Result<(), Refusal>
    ensures { outcome_number result ≡ model.untrailed_refusal session.now }
{
    let length = session.len();
    if length < LEAST_SESSION || GREATEST_SESSION < length {
        return Err(Refusal::SessionLength);
    }
    if !is_fuse_byte(session[FUSES]) {
        return Err(Refusal::FuseByte);
    }
    if !staging_fits(session, 0) {
        return Err(Refusal::StagingBytes);
    }
    Ok(())
}

// What a search finds, or 17, with its trailer in place of the last eight bytes.
fn mend_with<F: Fn(&[u8]) -> Option<Found>>(session: &mut [u8], search: F) -> Result<Found, Refusal>
    requires callable { F.IsAlwaysCallable search }
    requires finds { (s : _) (found : _) → FnReturnsAt F.Fn search s found → found_by found ≡ model.smallest_start s }
    ensures { mended_of result session.new ≡ model.mend session.old }
{
    untrailed_refusal(session)?;
    let Some(found) = search(session) else {
        return Err(Refusal::NoStart);
    };
    let end = session.len() - TRAILER;
    put(session, end, found.start, found.count, 83, 69);
    Ok(found)
}

// A session mended, by the table of counts. A refusal changes nothing.
pub fn mend(session: &mut [u8]) -> Result<Found, Refusal>
    ensures { mended_of result session.new ≡ model.mend session.old }
{
    mend_with(session, table::smallest_start)
}
