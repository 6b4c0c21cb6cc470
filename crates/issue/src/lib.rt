// A command that is issued to a card: kinds 2 to 12. Whether it makes the card busy is judged before.
#![tactic(auto)]

ghost use Rattle.std.specs.Prelude.{◌≡◌, [], ◌∷◌, ◌++◌, ◌≤◌, length, drop};
ghost use Rattle.model.specs.Sizes.{card_size, fuse_at};
ghost use Rattle.model.specs.Lists.{at};
ghost use Rattle.busy.specs.TimedState.{state_of};
ghost use Rattle.record.specs.DecodedRecord.{asked_by};
ghost use Rattle.issue.specs.Issued.{Ready, Carried};

use access::volatile::Zone;
use busy::State;
use configuration::reset::answer_to_reset;
use configuration::{read_configuration, write_configuration};
use kinds::kind::Kind;
use kinds::read_count;
use memory::zone::{read_zone, write_zone};
use record::decoder::Head;
use sizes::FUSES;
use timed_security::done::{Done, settled};
use timed_security::{begin, blow_fuse, judge, present};

// Read fuses: the fuse byte alone.
fn read_fuses(card: &[u8], response: &mut [u8])
    requires { (length card.now ≡ card_size) × (1 ≤ length response.old) }
    ensures { response.new ≡ (at card.now fuse_at ∷ []) ++ drop 1 response.old }
{
    response[0] = card[FUSES];
}

// helper: what a command does with these first bytes, whose record takes the bytes up to end.
pub fn issue(
    card: &mut [u8],
    state: State,
    head: Head,
    record: &[u8],
    end: usize,
    response: &mut [u8],
) -> Done
    requires { (2 ≤ head.kind) × (head.kind ≤ 12) × Ready card.old (state_of state) (asked_by «record».now end head) «record».now end response.old }
    ensures { Carried card.old (state_of state) (asked_by «record».now end head) response.old
        card.new (state_of result.state) result.tries response.new }
{
    let volatile = state.volatile;
    match head.kind() {
        Kind::Reset => settled(state, answer_to_reset(card, volatile, response), false),
        Kind::Select => settled(state, volatile.selecting(Zone(head.a)), false),
        Kind::ReadZone => {
            read_zone(
                card,
                volatile,
                head.a,
                read_count(head.n) as usize,
                response,
            );
            settled(state, volatile, false)
        }
        Kind::WriteZone => {
            write_zone(card, volatile, head.a, &record[3..end]);
            settled(state, volatile, true)
        }
        Kind::ReadConfiguration => {
            read_configuration(card, volatile, head.a, head.n as usize, response);
            settled(state, volatile, false)
        }
        Kind::WriteConfiguration => {
            write_configuration(card, volatile, head.a, &record[3..end]);
            settled(state, volatile, true)
        }
        Kind::ReadFuses => {
            read_fuses(card, response);
            settled(state, volatile, false)
        }
        Kind::WriteFuses => blow_fuse(card, state),
        Kind::VerifyPassword => present(card, state, head.a, &record[2..end]),
        Kind::BeginAuthentication => begin(card, state),
        _ => judge(card, state, head.a == 1, &record[2..end]),
    }
}
