// Whether a call is refused, or which record it carries out: 11, 5, 16, 12, the record, 9, 10.
ghost use Rattle.std.specs.Prelude.{◌≡◌, cond, not, ◌&&◌, [], ◌≤◌, ltb};
ghost use Rattle.model.specs.At88sc1608.{at88sc1608};
ghost use Rattle.model.specs.Single as model;
ghost use Rattle.model.specs.Busy.{acts_always, acts_busy};
ghost use Rattle.model.specs.Record.{made};
ghost use Rattle.laws.specs.BusyLaws.{full_answer};
ghost use Rattle.access.specs.VolatileState.{active_of, volatile_of};
ghost use Rattle.busy.specs.TimedState.{state_of};
ghost use Rattle.record.specs.DecodedRecord.{decoded_of};
ghost use Rattle.record.specs.RefusalNumber.{outcome_number};

use access::rights::is_fuse_byte;
use access::volatile::Volatile;
use busy::{State, WRITE_TIME, is_halted, is_ignored};
use record::decoder::{Decoded, Head, decode, head_of};
use record::refusal::Refusal;
use sizes::{CARD, FUSES};
use staging::staging_fits;

fn selector_in_range(active: Option<u8>) -> bool
    ensures { result ≡ model.active_below 16 (active_of active) }
{
    active.is_none_or(|k| k < 16)
}

fn volatile_in_range(state: Volatile) -> bool
    ensures { result ≡ model.volatile_in_range at88sc1608 (volatile_of state) }
{
    state.zone.0 < 8 && selector_in_range(state.active)
}

fn state_in_range(state: State) -> bool
    ensures { result ≡ model.state_in_range at88sc1608 (state_of state) }
{
    volatile_in_range(state.volatile) && state.busy <= WRITE_TIME
}

// The checks of the card and the state.
pub fn check(card: &[u8], state: State) -> Result<(), Refusal>
    ensures { outcome_number result ≡ model.check card.now (state_of state) }
{
    if card.len() != CARD {
        return Err(Refusal::CardLength);
    }
    let fuses = is_fuse_byte(card[FUSES]);
    let staging = staging_fits(card, 0);
    let range = state_in_range(state);
    if !fuses {
        return Err(Refusal::FuseByte);
    }
    if !staging {
        return Err(Refusal::StagingBytes);
    }
    if !range {
        return Err(Refusal::StateOutOfRange);
    }
    Ok(())
}

// How much is to be written in answer to a record with these first bytes: nothing where it is ignored.
fn needed(halted: bool, busy: u8, head: Head) -> usize
    requires { (1 ≤ head.kind) × (head.kind ≤ 16) }
    ensures { result ≡ cond (cond halted (not (acts_always head.kind)) (ltb 0 busy && not (acts_busy head.kind))) 0
        (full_answer at88sc1608 (made head.kind 0 head.n [])) }
{
    if is_ignored(halted, busy, head.kind) {
        return 0;
    }
    head.kind().answer_length(head.n) as usize
}

// The record that the call carries out, and its length.
pub fn admit(card: &[u8], state: State, record: &[u8], room: usize) -> Result<Decoded, Refusal>
    ensures { decoded_of «record».now result ≡ model.admission card.now (state_of state) «record».now room }
{
    check(card, state)?;
    let decoded = decode(record)?;
    if decoded.length < record.len() {
        return Err(Refusal::BytesLeft);
    }
    let head = head_of(record);
    let halted = is_halted(card, state.power.off);
    if room < needed(halted, state.busy, head) {
        return Err(Refusal::NoSpace);
    }
    Ok(decoded)
}
