// The state of a card with its busy time, its power and what is armed: what a card ignores, and how time passes.
#![tactic(auto)]

ghost use Rattle.std.specs.Prelude.{◌≡◌, cond, not, ◌&&◌, ◌||◌, ◌-◌, ltb, length};
ghost use Rattle.model.specs.Sizes.{card_size};
ghost use Rattle.model.specs.At88sc1608.{at88sc1608};
ghost use Rattle.model.specs.Staging.{is_ready};
ghost use Rattle.model.specs.State.{powered_up, power_on, power_lost, write_time};
ghost use Rattle.model.specs.Busy.{acts_always, acts_busy};
ghost use Rattle.model.specs.State as model;
ghost use Rattle.access.specs.VolatileState.{volatile_of};
ghost use Rattle.staging.specs.Fuel.{tear_of};
ghost use Rattle.busy.specs.TimedState.{state_of};

use access::volatile::Volatile;
use sizes::FLAG;
use staging::READY;
use staging::tear::Tear;

// The milliseconds that a write takes.
pub const WRITE_TIME: u8 = 10;

// Whether the card lost power in a write and is off, and what is armed.
#[derive(Clone, Copy)]
pub struct Power {
    pub off: bool,
    pub tear: Option<Tear>,
}

// The volatile state; for how many milliseconds the card is still busy, 0 when it is ready; and its power.
#[derive(Clone, Copy)]
pub struct State {
    pub volatile: Volatile,
    pub busy: u8,
    pub power: Power,
}

impl State {
    // The state with another volatile state and busy time.
    pub fn timed(self, volatile: Volatile, busy: u8) -> State
        ensures { state_of result ≡ model.timed (state_of self) (volatile_of volatile) busy }
    {
        State {
            volatile,
            busy,
            ..self
        }
    }

    // The state with another tear armed, or none.
    pub fn arming(self, tear: Option<Tear>) -> State
        ensures { state_of result ≡ model.arming (state_of self) (tear_of tear) }
    {
        let power = Power { tear, ..self.power };
        State { power, ..self }
    }

    // After power-up, with what is still armed.
    pub fn powered_up(tear: Option<Tear>) -> State
        ensures { state_of result ≡ powered_up (tear_of tear) }
    {
        State {
            volatile: Volatile::power_up(),
            busy: 0,
            power: Power { off: false, tear },
        }
    }

    pub fn power_on() -> State
        ensures { state_of result ≡ power_on }
    {
        State::powered_up(None)
    }

    // After a tear.
    pub fn power_lost() -> State
        ensures { state_of result ≡ power_lost }
    {
        let power = Power {
            off: true,
            tear: None,
        };
        State {
            power,
            ..State::power_on()
        }
    }
}

// Whether records of a kind act at any time: power cycle, arm.
fn acts_always(kind: u8) -> bool
    ensures { result ≡ acts_always kind }
{
    kind == 1 || kind == 16
}

// Whether they act on a card that is busy: wait and poll too.
fn acts_busy(kind: u8) -> bool
    ensures { result ≡ acts_busy kind }
{
    acts_always(kind) || kind == 13 || kind == 14
}

// helper: whether a card is off or has a write to finish.
pub fn is_halted(card: &[u8], off: bool) -> bool
    requires { length card.now ≡ card_size }
    ensures { result ≡ (off || is_ready at88sc1608 card.now) }
{
    off || card[FLAG] == READY
}

// Whether a card, halted or not, with this busy time ignores a record of a kind.
pub fn is_ignored(halted: bool, busy: u8, kind: u8) -> bool
    ensures { result ≡ cond halted (not (acts_always kind)) (ltb 0 busy && not (acts_busy kind)) }
{
    if halted {
        !acts_always(kind)
    } else {
        0 < busy && !acts_busy(kind)
    }
}

// The busy time after a command that makes a card busy, or does not.
pub fn time_after(busy: bool) -> u8
    ensures { result ≡ cond busy write_time 0 }
{
    if busy { WRITE_TIME } else { 0 }
}

// The busy time after so many milliseconds.
pub fn time_left(busy: u8, passed: u8) -> u8
    ensures { result ≡ busy - passed }
{
    busy.saturating_sub(passed)
}

// The byte that a poll answers.
pub fn busy_byte(busy: u8) -> u8
    ensures { result ≡ cond (ltb 0 busy) 1 0 }
{
    u8::from(0 < busy)
}
