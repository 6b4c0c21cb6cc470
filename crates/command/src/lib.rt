// The single command: one record on one card and its state.
#![tactic(auto)]

ghost use Rattle.std.specs.Prelude.{◌≡◌};
ghost use Rattle.model.specs.Call.{calling};
ghost use Rattle.model.specs.Single as model;
ghost use Rattle.busy.specs.TimedState.{state_of};
ghost use Rattle.command.specs.Reply.{called_of};

use crate::admit::admit;
use busy::{State, is_halted, is_ignored};
use carry::carry_out;
use record::decoder::head_of;
use record::refusal::Refusal;

pub mod admit;

// What an accepted call gives back beside the response space. The kind is the record's, or that plus 128 where the card ignored it; the tries
// are those left of the counter that the command used, 0 if it used none.
#[derive(Clone, Copy)]
pub struct Reply {
    pub kind: u8,
    pub size: usize,
    pub state: State,
    pub tries: u8,
}

// One command on a card. A refusal changes nothing, and the state stays what it was; so it is with a record that the card ignores.
pub fn command(
    card: &mut [u8],
    state: State,
    record: &[u8],
    response: &mut [u8],
) -> Result<Reply, Refusal>
    ensures { called_of state result card.new response.new
        ≡ model.command card.old (state_of state) (calling «record».now response.old) }
{
    let decoded = admit(card, state, record, response.len())?;
    let head = head_of(record);
    let halted = is_halted(card, state.power.off);
    if is_ignored(halted, state.busy, head.kind) {
        return Ok(Reply {
            kind: head.kind + 128,
            size: 0,
            state,
            tries: 0,
        });
    }
    let size = head.kind().answer_length(head.n) as usize;
    let done = carry_out(card, state, head, record, decoded.length, response);
    Ok(Reply {
        kind: head.kind,
        size,
        state: done.state,
        tries: done.tries,
    })
}
