// What a record leaves beside the card and the response.
ghost use Rattle.std.specs.Prelude.{◌≡◌, cond};
ghost use Rattle.model.specs.State.{write_time};
ghost use Rattle.model.specs.State as model;
ghost use Rattle.access.specs.VolatileState.{volatile_of};
ghost use Rattle.busy.specs.TimedState.{state_of};

use access::volatile::Volatile;
use busy::{State, time_after};
use security::report::{Report, reporting};

// The state, and the tries left of the counter that the record used, 0 if none.
#[derive(Clone, Copy)]
pub struct Done {
    pub state: State,
    pub tries: u8,
}

// A command that reported, and made the card busy or did not.
pub fn left(state: State, report: Report, busy: bool) -> Done
    ensures state { state_of result.state ≡ model.timed (state_of state) (volatile_of report.state) (cond busy write_time 0) }
    ensures tries { result.tries ≡ report.tries }
{
    Done {
        state: state.timed(report.state, time_after(busy)),
        tries: report.tries,
    }
}

// A command that uses no counter.
pub fn settled(state: State, volatile: Volatile, busy: bool) -> Done
    ensures state { state_of result.state ≡ model.timed (state_of state) (volatile_of volatile) (cond busy write_time 0) }
    ensures tries { result.tries ≡ 0 }
{
    left(state, reporting(volatile), busy)
}

// What is no command.
pub fn quiet(state: State) -> Done
    ensures state { state_of result.state ≡ state_of state }
    ensures tries { result.tries ≡ 0 }
{
    Done { state, tries: 0 }
}
