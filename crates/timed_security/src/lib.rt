// Kinds 9 to 12 with their time: what opens and closes, and whether the card is then busy, which is judged before.
#![tactic(auto)]

ghost use Rattle.std.specs.Prelude.{◌≡◌, length};
ghost use Rattle.model.specs.Sizes.{card_size};
ghost use Rattle.model.specs.Instruction.{write_fuses, verify_password, begin_authentication, verify_authentication};
ghost use Rattle.busy.specs.TimedState.{state_of};
ghost use Rattle.timed_security.specs.IssuedCommand.{Issued};

use crate::done::{Done, left, settled};
use busy::State;
use security::authentication::{begin_authentication, verify_authentication};
use security::counter::counter_at;
use security::fuse::write_fuses;
use security::password::verify_password;
use sizes::{ATTEMPTS, FUSES};

pub mod done;

// helper: write fuses, busy where a fuse is left for whom it is allowed.
#[tactic(auto, unfolding(model::specs::Apply::apply))]
pub fn blow_fuse(card: &mut [u8], state: State) -> Done
    requires { length card.old ≡ card_size }
    ensures { Issued card.old (state_of state) write_fuses card.new (state_of result.state) result.tries }
{
    let volatile = state.volatile;
    let busy = volatile.is_active(7) && card[FUSES] != 0;
    write_fuses(card, volatile);
    settled(state, volatile, busy)
}

// helper: verify password, busy where its counter is not used up.
pub fn present(card: &mut [u8], state: State, selector: u8, bytes: &[u8]) -> Done
    requires { (length card.old ≡ card_size) × (length bytes.now ≡ 3) }
    ensures { Issued card.old (state_of state) (verify_password selector bytes.now) card.new
        (state_of result.state) result.tries }
{
    let volatile = state.volatile;
    let busy = card[counter_at(selector)] != 0;
    left(
        state,
        verify_password(card, volatile, selector, bytes),
        busy,
    )
}

// helper: begin authentication, busy where its counter is not used up.
pub fn begin(card: &mut [u8], state: State) -> Done
    requires { length card.old ≡ card_size }
    ensures { Issued card.old (state_of state) begin_authentication card.new (state_of result.state) result.tries }
{
    let volatile = state.volatile;
    let busy = card[ATTEMPTS] != 0;
    left(state, begin_authentication(card, volatile), busy)
}

// helper: verify authentication, busy where it is begun.
pub fn judge(card: &mut [u8], state: State, verdict: bool, bytes: &[u8]) -> Done
    requires { (length card.old ≡ card_size) × (length bytes.now ≡ 8) }
    ensures { Issued card.old (state_of state) (verify_authentication verdict bytes.now) card.new
        (state_of result.state) result.tries }
{
    let volatile = state.volatile;
    let busy = volatile.is_begun();
    left(
        state,
        verify_authentication(card, volatile, verdict, bytes),
        busy,
    )
}
