// Authentication: begun by the host, judged by the session's verdict.
ghost use Rattle.std.specs.Prelude.{◌≡◌, [], length};
ghost use Rattle.model.specs.Sizes.{card_size};
ghost use Rattle.model.specs.Instruction.{begin_authentication, verify_authentication};
ghost use Rattle.model.specs.Single.{apply};
ghost use Rattle.security.specs.Cryptogram.{renewed};
ghost use Rattle.access.specs.VolatileState.{volatile_of};
ghost use Rattle.security.specs.Report.{report_of};

use crate::counter::{SpentCounter, spent};
use crate::report::{Report, reporting};
use access::volatile::{Authentication, Volatile};
use sizes::{ATTEMPTS, CRYPTOGRAM};
use slices::copy;

// helper: begin authentication.
#[tactic(auto, unfolding(model::specs::Apply::apply))]
pub fn begin_authentication(card: &mut [u8], state: Volatile) -> Report
    requires { length card.old ≡ card_size }
    ensures report { report_of result [] ≡ (apply card.old (volatile_of state) begin_authentication).report }
    ensures card { card.new ≡ (apply card.old (volatile_of state) begin_authentication).card }
{
    let count = card[ATTEMPTS];
    if count == 0 {
        return reporting(state);
    }
    let SpentCounter { value, tries } = spent(count);
    card[ATTEMPTS] = value;
    Report {
        state: state.authenticating(Authentication::Begun),
        tries,
    }
}

// The eight bytes become the cryptogram.
fn renew(card: &mut [u8], bytes: &[u8])
    requires { (length card.old ≡ card_size) × (length bytes.now ≡ 8) }
    ensures { card.new ≡ renewed bytes.now card.old }
{
    copy(card, CRYPTOGRAM, bytes, 0, 8);
}

// helper: verify authentication.
#[tactic(auto, unfolding(model::specs::Apply::apply))]
pub fn verify_authentication(
    card: &mut [u8],
    state: Volatile,
    verdict: bool,
    bytes: &[u8],
) -> Report
    requires { (length card.old ≡ card_size) × (length bytes.now ≡ 8) }
    ensures report { report_of result [] ≡ (apply card.old (volatile_of state) (verify_authentication verdict bytes.now)).report }
    ensures card { card.new ≡ (apply card.old (volatile_of state) (verify_authentication verdict bytes.now)).card }
{
    if !state.is_begun() {
        return reporting(state);
    }
    if !verdict {
        return reporting(state.authenticating(Authentication::Idle));
    }
    renew(card, bytes);
    card[ATTEMPTS] = 255;
    reporting(state.authenticating(Authentication::Granted))
}
