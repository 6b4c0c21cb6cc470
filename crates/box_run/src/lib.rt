// The box for practice: it takes shorter sessions with fewer records, and runs them as an exam machine does.
#![tactic(auto)]

ghost use Rattle.std.specs.Prelude.{◌≡◌};
ghost use Rattle.model.specs.Box as model;
ghost use Rattle.session.specs.Run.{ran_of};

use record::number;
use record::refusal::{Refusal, outcome_number};
use session::run;
use sizes::{BOX_RECORDS, BOX_SESSION};
use validate::frame;

// Whether a session exceeds the box's limits, judged directly after 4.
pub fn box_refuses(session: &[u8]) -> bool
    ensures { result ≡ model.box_refuses session.now }
{
    let number = outcome_number(frame(session));
    if (1..=Refusal::TooManyRecords as u8).contains(&number) {
        return false;
    }
    let length = session.len();
    BOX_SESSION < length || BOX_RECORDS < number::get::<2>(session, length - 4)
}

// A session run in the box: 18, or what an exam machine does with it.
pub fn box_run(session: &[u8], log: &mut [u8]) -> Result<usize, Refusal>
    ensures { ran_of result log.new ≡ model.box_run session.now log.old }
{
    if box_refuses(session) {
        return Err(Refusal::BoxLimits);
    }
    run(session, log)
}
