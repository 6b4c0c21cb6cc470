// The state of a card as nine bytes.
#![tactic(auto)]

ghost use Rattle.std.specs.Prelude.{◌≡◌, length, IfOk};
ghost use Rattle.access.specs.VolatileState.{active_of, authentication_of};
ghost use Rattle.staging.specs.Fuel.{tear_of};
ghost use Rattle.busy.specs.TimedState as timed;
ghost use Rattle.state_bytes.specs.StateBytes.{active_flag, active_selector, authentication_byte, active_in_range, is_state, active_read, authentication_read};
ghost use Rattle.state_bytes.specs.StateBytes.{tear_flag, tear_cells, tear_junk, tear_in_range, tear_read, state_of};
ghost use Rattle.state_bytes.specs.WrittenState.{written};

use access::volatile::{Authentication, Volatile, Zone};
use busy::{Power, State, WRITE_TIME};
use record::refusal::Refusal;
use staging::tear::Tear;

fn active_flag(active: Option<u8>) -> u8
    ensures { result ≡ active_flag (active_of active) }
{
    u8::from(active.is_some())
}

fn active_selector(active: Option<u8>) -> u8
    ensures { result ≡ active_selector (active_of active) }
{
    active.unwrap_or(0)
}

fn authentication_byte(authentication: Authentication) -> u8
    ensures { result ≡ authentication_byte (authentication_of authentication) }
{
    authentication as u8
}

fn tear_flag(tear: Option<Tear>) -> u8
    ensures { result ≡ tear_flag (tear_of tear) }
{
    u8::from(tear.is_some())
}

fn tear_cells(tear: Option<Tear>) -> u8
    ensures { result ≡ tear_cells (tear_of tear) }
{
    tear.map_or(0, |tear| tear.cells)
}

fn tear_junk(tear: Option<Tear>) -> u8
    ensures { result ≡ tear_junk (tear_of tear) }
{
    tear.map_or(0, |tear| tear.junk)
}

// Whether a flag and a selector stand for an active password, or for none.
fn active_in_range(flag: u8, selector: u8) -> bool
    ensures { result ≡ active_in_range flag selector }
{
    match flag {
        0 => selector == 0,
        1 => selector < 16,
        _ => false,
    }
}

// Whether three bytes stand for an armed tear, or for none.
fn tear_in_range(flag: u8, k: u8, junk: u8) -> bool
    ensures { result ≡ tear_in_range flag k junk }
{
    match flag {
        0 => k == 0 && junk == 0,
        _ => flag == 1,
    }
}

// Whether some bytes stand for a state.
#[tactic(auto, unfolding(crate::specs::StateBytes::is_state))]
fn is_state(bytes: &[u8]) -> bool
    ensures { result ≡ is_state bytes.now }
{
    bytes.len() == 9
        && bytes[0] < 8
        && bytes[3] < 3
        && bytes[4] <= WRITE_TIME
        && bytes[5] < 2
        && tear_in_range(bytes[6], bytes[7], bytes[8])
        && active_in_range(bytes[1], bytes[2])
}

fn active_read(flag: u8, selector: u8) -> Option<u8>
    ensures { active_of result ≡ active_read flag selector }
{
    (flag != 0).then_some(selector)
}

fn authentication_read(byte: u8) -> Authentication
    ensures { authentication_of result ≡ authentication_read byte }
{
    match byte {
        0 => Authentication::Idle,
        1 => Authentication::Begun,
        _ => Authentication::Granted,
    }
}

fn tear_read(flag: u8, cells: u8, junk: u8) -> Option<Tear>
    ensures { tear_of result ≡ tear_read flag cells junk }
{
    (flag != 0).then_some(Tear { cells, junk })
}

// The state that bytes stand for, or one out of range, which every call refuses.
#[tactic(auto, using(crate::specs::StateLaws::state_long), unfolding(crate::specs::StateBytes::state_of))]
pub fn read_state(bytes: &[u8]) -> State
    ensures { timed.state_of result ≡ state_of bytes.now }
{
    if !is_state(bytes) {
        return State {
            volatile: Volatile {
                zone: Zone(255),
                active: None,
                authentication: Authentication::Idle,
            },
            busy: 0,
            power: Power {
                off: false,
                tear: None,
            },
        };
    }
    let active = active_read(bytes[1], bytes[2]);
    let authentication = authentication_read(bytes[3]);
    let tear = tear_read(bytes[6], bytes[7], bytes[8]);
    State {
        volatile: Volatile {
            zone: Zone(bytes[0]),
            active,
            authentication,
        },
        busy: bytes[4],
        power: Power {
            off: bytes[5] == 1,
            tear,
        },
    }
}

// helper: the state after an accepted call; a refused one leaves the bytes.
pub fn write_state(bytes: &mut [u8], after: Result<State, Refusal>)
    requires { IfOk after (λ _. length bytes.old ≡ 9) }
    ensures { bytes.new ≡ written after bytes.old }
{
    let Ok(state) = after else {
        return;
    };
    let volatile = state.volatile;
    let power = state.power;
    bytes.copy_from_slice(&[
        volatile.zone.0,
        active_flag(volatile.active),
        active_selector(volatile.active),
        authentication_byte(volatile.authentication),
        state.busy,
        u8::from(power.off),
        tear_flag(power.tear),
        tear_cells(power.tear),
        tear_junk(power.tear),
    ]);
}
