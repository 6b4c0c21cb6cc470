// The fuses.
ghost use Rattle.std.specs.Prelude.{◌≡◌, length};
ghost use Rattle.model.specs.Sizes.{card_size};
ghost use Rattle.model.specs.At88sc1608.{blow};
ghost use Rattle.model.specs.Instruction.{write_fuses};
ghost use Rattle.model.specs.Single.{apply};
ghost use Rattle.access.specs.VolatileState.{volatile_of};

use access::volatile::Volatile;
use sizes::FUSES;

// The fuse byte after one more fuse is blown.
#[tactic(auto, unfolding(model::specs::At88sc1608::blow))]
pub fn blown(fuses: u8) -> u8
    ensures { result ≡ blow fuses }
{
    match fuses {
        7 => 6,
        6 => 4,
        _ => 0,
    }
}

// helper: write fuses, for whom write password 7 is active.
#[tactic(auto, unfolding(model::specs::Apply::apply))]
pub fn write_fuses(card: &mut [u8], state: Volatile)
    requires { length card.old ≡ card_size }
    ensures { card.new ≡ (apply card.old (volatile_of state) write_fuses).card }
{
    if state.is_active(7) {
        card[FUSES] = blown(card[FUSES]);
    }
}
