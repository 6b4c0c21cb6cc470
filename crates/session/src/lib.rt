// A session: checked whole, run on its card, and logged.
#![tactic(auto)]

ghost use Rattle.std.specs.Prelude.{◌≡◌};
ghost use Rattle.model.specs.Session as model;
ghost use Rattle.session.specs.Run.{ran_of};

use crate::write::write_log;
use record::refusal::Refusal;
use sizes::LEAST_LOG;
use validate::check;

pub mod write;

// A session run: how long its log is. A refusal changes nothing; an accepted session's log stands at the front of the log space,
// which must have room for every record's full response, ignored or not.
pub fn run(session: &[u8], log: &mut [u8]) -> Result<usize, Refusal>
    ensures { ran_of result log.new ≡ model.run session.now log.old }
{
    let entries = check(session)?;
    let room = log.len();
    if room < LEAST_LOG || room - LEAST_LOG < entries {
        return Err(Refusal::NoSpace);
    }
    Ok(write_log(session, log))
}
