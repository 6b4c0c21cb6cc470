// The staging bytes of a card, and the cells that a staged write and its finishing write, torn or not.
#![tactic(auto)]

ghost use Rattle.std.specs.Prelude.{◌≡◌, ◌+◌, ◌≤◌, length, drop};
ghost use Rattle.model.specs.Sizes.{card_size};
ghost use Rattle.model.specs.Single.{staging_fits};

use sizes::{FLAG, STAGED};

pub mod cells;
pub mod stage;
pub mod tear;

// The two values of the flag.
pub const IDLE: u8 = 255;

pub const READY: u8 = 254;

// helper: whether the staging bytes of the card that begins at a place are well.
pub fn staging_fits(bytes: &[u8], at: usize) -> bool
    requires { at + card_size ≤ length bytes.now }
    ensures { result ≡ staging_fits (drop at bytes.now) }
{
    match bytes[at + FLAG] {
        IDLE => true,
        READY => bytes[at + STAGED] < 8 && bytes[at + STAGED + 2] <= 8,
        _ => false,
    }
}
