// A session that was checked is run on a working card, and its log written.
ghost use Rattle.std.specs.Prelude.{◌≡◌, ◌≤◌, length};
ghost use Rattle.model.specs.Sizes.{card_size};
ghost use Rattle.model.specs.Session.{card_of};
ghost use Rattle.model.specs.Call.{powered};
ghost use Rattle.busy.specs.TimedState.{state_of};
ghost use Rattle.record.specs.DecodedRecord.{head_of};
ghost use Rattle.session.specs.Run.{EntryReady, EntryWritten, RecordsReady, RecordsRun, LogReady, LogWritten};

use busy::{State, is_halted, is_ignored};
use carry::carry_out;
use reader::records_end;
use record::decoder::{Head, head_of};
use record::number;
use session_log::write::{put_header, put_trailer};
use sizes::{CARD, LEAST_LOG, TRAILER};

// The state after a record, and where its entry ends.
#[derive(Clone, Copy)]
pub struct Entered {
    pub state: State,
    pub end: usize,
}

// helper: the record at the front of a part carried out, and its entry written. It was checked, so its head tells what it is.
fn write_entry(
    part: &[u8],
    head: Head,
    card: &mut [u8],
    state: State,
    log: &mut [u8],
    place: usize,
) -> Entered
    requires { (head ≡ head_of part.now) × EntryReady part.now (powered card.old (state_of state)) log.old place }
    ensures { EntryWritten part.now (powered card.old (state_of state)) log.old place
        card.new (state_of result.state) result.end log.new }
{
    let zone = state.volatile.zone.0;
    let halted = is_halted(card, state.power.off);
    if is_ignored(halted, state.busy, head.kind) {
        let end = put_header(log, place, head.kind + 128, 0, zone);
        return Entered { state, end };
    }
    let kind = head.kind();
    let response = kind.answer_length(head.n) as usize;
    let from = put_header(log, place, head.kind, response, zone);
    let end = kind.record_length(head.n);
    let done = carry_out(card, state, head, part, end, &mut log[from..]);
    Entered {
        state: done.state,
        end: from + response,
    }
}

// helper: count records from start on, run from power-up; where their entries end.
fn run_records(session: &[u8], start: usize, count: usize, card: &mut [u8], log: &mut [u8]) -> usize
    requires { RecordsReady session.now start count card.old log.old }
    ensures { RecordsRun session.now start count card.old log.old card.new log.new result }
{
    let end = records_end(session);
    let mut state = State::power_on();
    let mut at = start;
    let mut place = 0;
    for _ in 0..count {
        let part = &session[at..end];
        let head = head_of(part);
        let entered = write_entry(part, head, card, state, log, place);
        state = entered.state;
        at += head.kind().record_length(head.n);
        place = entered.end;
    }
    place
}

// The card that a session begins with.
fn card_of(session: &[u8]) -> [u8; CARD]
    requires { card_size ≤ length session.now }
    ensures { result ≡ card_of session.now }
{
    let mut card = [0; CARD];
    card.copy_from_slice(&session[..CARD]);
    card
}

// helper: the entries, the final card and the trailer; how long the log is.
pub fn write_log(session: &[u8], log: &mut [u8]) -> usize
    requires { LogReady session.now log.old }
    ensures { LogWritten session.now log.old result log.new }
{
    let length = session.len();
    let start = number::get::<4>(session, length - TRAILER);
    let count = number::get::<2>(session, length - 4);
    let mut card = card_of(session);
    let entries = run_records(session, start, count, &mut card, log);
    log[entries..entries + CARD].copy_from_slice(&card);
    put_trailer(log, entries + CARD, entries, count);
    entries + LEAST_LOG
}
