// Password verification: decide, then act.
ghost use Rattle.std.specs.Prelude.{◌≡◌, [], length};
ghost use Rattle.model.specs.Sizes.{card_size};
ghost use Rattle.model.specs.Lists.{same_list};
ghost use Rattle.model.specs.Apply.{password};
ghost use Rattle.model.specs.At88sc1608.{at88sc1608};
ghost use Rattle.model.specs.Instruction.{verify_password};
ghost use Rattle.model.specs.Single.{apply};
ghost use Rattle.security.specs.Password.{settled};
ghost use Rattle.access.specs.VolatileState.{volatile_of};
ghost use Rattle.security.specs.Report.{report_of};

use crate::counter::{SpentCounter, counter_at, spent};
use crate::report::{Report, reporting};
use access::volatile::Volatile;
use slices::word_at;

// Whether three bytes are the password of a selector.
fn is_password(card: &[u8], selector: u8, bytes: &[u8]) -> bool
    requires { (length card.now ≡ card_size) × (length bytes.now ≡ 3) }
    ensures { result ≡ same_list bytes.now (password at88sc1608 card.now selector) }
{
    word_at(bytes, 0) == word_at(card, counter_at(selector) + 1)
}

// The counter of a presentation moves, and with it the active password.
#[tactic(auto, unfolding(crate::specs::Password::settled, model::specs::Bits::tries_left))]
fn settle(card: &mut [u8], state: Volatile, selector: u8, right: bool) -> Report
    requires { length card.old ≡ card_size }
    ensures report { report_of result [] ≡ (settled card.old (volatile_of state) selector right).report }
    ensures card { card.new ≡ (settled card.old (volatile_of state) selector right).card }
{
    let at = counter_at(selector);
    let count = card[at];
    if count == 0 {
        return reporting(state);
    }
    if right {
        card[at] = 255;
        return Report {
            state: state.activating(Some(selector)),
            tries: 8,
        };
    }
    let SpentCounter { value, tries } = spent(count);
    card[at] = value;
    Report {
        state: state.activating(None),
        tries,
    }
}

// helper: verify password.
#[tactic(auto, unfolding(crate::specs::Password::settled, model::specs::Apply::apply))]
pub fn verify_password(card: &mut [u8], state: Volatile, selector: u8, bytes: &[u8]) -> Report
    requires { (length card.old ≡ card_size) × (length bytes.now ≡ 3) }
    ensures report { report_of result [] ≡ (apply card.old (volatile_of state) (verify_password selector bytes.now)).report }
    ensures card { card.new ≡ (apply card.old (volatile_of state) (verify_password selector bytes.now)).card }
{
    let right = is_password(card, selector, bytes);
    settle(card, state, selector, right)
}
