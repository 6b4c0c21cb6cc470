// A record that was admitted, and that the card does not ignore, is carried out.
#![tactic(auto)]

ghost use Rattle.std.specs.Prelude.{◌≤◌};
ghost use Rattle.busy.specs.TimedState.{state_of};
ghost use Rattle.record.specs.DecodedRecord.{asked_by};
ghost use Rattle.issue.specs.Issued.{Ready, Carried};

use crate::staged::{power_cycle, write_staged};
use busy::{State, busy_byte, time_left};
use issue::issue;
use kinds::kind::Kind;
use record::decoder::Head;
use staging::tear::Tear;
use timed_security::done::{Done, quiet};

pub mod staged;

// helper: what a record does that has these first bytes, takes the bytes up to end and is not ignored.
#[tactic(auto, using(record::specs::DataLaws::between_some), unfolding(record::specs::DecodedRecord::record_of))]
pub fn carry_out(
    card: &mut [u8],
    state: State,
    head: Head,
    record: &[u8],
    end: usize,
    response: &mut [u8],
) -> Done
    requires { (1 ≤ head.kind) × (head.kind ≤ 16) × Ready card.old (state_of state) (asked_by «record».now end head) «record».now end response.old }
    ensures { Carried card.old (state_of state) (asked_by «record».now end head) response.old
        card.new (state_of result.state) result.tries response.new }
{
    match head.kind() {
        Kind::PowerCycle => power_cycle(card, state),
        Kind::Wait => quiet(state.timed(state.volatile, time_left(state.busy, head.a))),
        Kind::Poll => {
            response[0] = busy_byte(state.busy);
            quiet(state)
        }
        Kind::WriteStaged => write_staged(card, state, head.a, &record[3..end]),
        Kind::Arm => {
            let tear = Tear {
                cells: head.a,
                junk: head.n,
            };
            quiet(state.arming(Some(tear)))
        }
        _ => issue(card, state, head, record, end, response),
    }
}
