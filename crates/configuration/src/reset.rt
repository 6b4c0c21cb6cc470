// The answer to reset.
ghost use Rattle.std.specs.Prelude.{◌≡◌, ◌++◌, ◌≤◌, length, drop};
ghost use Rattle.model.specs.Sizes.{card_size};
ghost use Rattle.model.specs.Instruction.{reset};
ghost use Rattle.model.specs.Single.{apply};
ghost use Rattle.access.specs.VolatileState.{volatile_of};

use crate::reversal::reverse;
use access::volatile::{Authentication, Volatile};
use sizes::CONFIGURATION;

// helper: the four bytes from $00 on, each sent with its lowest bit first.
pub fn answer_to_reset(card: &[u8], state: Volatile, response: &mut [u8]) -> Volatile
    requires { (length card.now ≡ card_size) × (4 ≤ length response.old) }
    ensures state { volatile_of result ≡ (apply card.now (volatile_of state) reset).report.state }
    ensures answer { response.new ≡ (apply card.now (volatile_of state) reset).report.answer ++ drop 4 response.old }
{
    reverse(&card[CONFIGURATION..CONFIGURATION + 4], response);
    state.activating(None).authenticating(Authentication::Idle)
}
