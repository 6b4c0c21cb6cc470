// Listings: a session is run, and what an examiner reads of its log is written as text.
#![tactic(auto)]

ghost use Rattle.std.specs.Prelude.{◌≡◌};
ghost use Rattle.listing.specs.Listing as model;
ghost use Rattle.listing.specs.Listing.{Printed};

use crate::lines::{put_log, put_refusal};
use session::run;
use sizes::{LOG_SPACE, TEXT_SPACE};

pub mod lines;

// A session run in a log space, and its listing. What is given back says how much of the listing stands in the text space.
pub fn list(session: &[u8], log: &mut [u8], text: &mut [u8]) -> usize
    ensures { record { size = result; log = log.new; text = text.new }
        ≡ model.list_in session.now log.old text.old }
{
    let room = text.len();
    match run(session, log) {
        Ok(length) => put_log(text, &log[..length]).min(room),
        Err(why) => put_refusal(text, why).min(room),
    }
}

// What the program prints of a session, at the front of the text space: the whole listing, run in a log space of its own.
pub fn print(session: &[u8], text: &mut [u8; TEXT_SPACE]) -> usize
    ensures { Printed session.now text.old result text.new }
{
    let mut log = [0u8; LOG_SPACE];
    list(session, &mut log, text)
}
