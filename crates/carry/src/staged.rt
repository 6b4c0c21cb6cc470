// A power cycle, which finishes a write that is staged, and a staged write.
ghost use Rattle.std.specs.Prelude.{◌≡◌, true, ◌≤◌, ◌<◌, length};
ghost use Rattle.model.specs.Sizes.{card_size};
ghost use Rattle.model.specs.Instruction.{power_cycle, write_staged};
ghost use Rattle.model.specs.Single.{staging_fits};
ghost use Rattle.busy.specs.TimedState.{state_of};
ghost use Rattle.carry.specs.Carried.{Performed};

use access::volatile::Zone;
use busy::{State, WRITE_TIME};
use memory::zone::{final_values, may_stage};
use sizes::{FLAG, STAGED, VALUES};
use staging::READY;
use staging::cells::Fuel;
use staging::stage::{finish, stage};
use timed_security::done::{Done, quiet};

// helper: power cycle.
pub fn power_cycle(card: &mut [u8], state: State) -> Done
    requires { (length card.old ≡ card_size) × (staging_fits card.old ≡ true) }
    ensures { Performed card.old (state_of state) power_cycle card.new (state_of result.state) result.tries }
{
    let tear = state.power.tear;
    if card[FLAG] != READY {
        return quiet(State::powered_up(tear));
    }
    let zone = Zone(card[STAGED]);
    let address = card[STAGED + 1];
    let count = card[STAGED + 2] as usize;
    let mut values = [0u8; 8];
    values.copy_from_slice(&card[VALUES..VALUES + 8]);
    let mut fuel = Fuel::new(tear);
    finish(card, zone, address, &values[..count], &mut fuel);
    if fuel.cells == 0 {
        return quiet(State::power_lost());
    }
    quiet(State::power_on())
}

// helper: staged write.
pub fn write_staged(card: &mut [u8], state: State, address: u8, bytes: &[u8]) -> Done
    requires { (length card.old ≡ card_size) × (state.volatile.zone.0 < 8) × (length bytes.now ≤ 8) }
    ensures { Performed card.old (state_of state) (write_staged address bytes.now) card.new
        (state_of result.state) result.tries }
{
    let volatile = state.volatile;
    let writing = state.timed(volatile, WRITE_TIME);
    if !may_stage(card, volatile) {
        return quiet(writing);
    }
    let mut values = [0u8; 8];
    final_values(card, volatile, address, bytes, &mut values);
    let mut fuel = Fuel::new(state.power.tear);
    stage(
        card,
        volatile.zone,
        address,
        &values[..bytes.len()],
        &mut fuel,
    );
    if fuel.cells == 0 {
        return quiet(State::power_lost());
    }
    quiet(writing.arming(None))
}
