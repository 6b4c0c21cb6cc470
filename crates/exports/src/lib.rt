// The C interface: a session, also in the box, a single command, an answer of a log, a session written, a session mended. Slices pass as a
// pointer and a length.
#![tactic(auto)]

ghost use Rattle.std.specs.Prelude.{◌≡◌};
ghost use Rattle.model.specs.LogCheck as model;
ghost use Rattle.model.specs.Writer.{parts};
ghost use Rattle.exports.specs.Exports.{run_call, exported_run, exported_box_run, command_call, exported_command, exported_answer};
ghost use Rattle.exports.specs.Exports.{exported_writing, exported_mending};

use box_run::box_run;
use command::command;
use mender::mend;
use mender::search::mend_by_search;
use results::{mended_number, place_number, reply_number, run_number};
use session::run;
use session_log::find::fetch;
use state_bytes::{read_state, write_state};
use writer::write_session;

// A session run: the refusal's number, or 0, and 2^8 times the log's length.
#[unsafe(no_mangle)]
pub extern "C" fn at88sc1608_run(session: &[u8], log: &mut [u8]) -> u64
    ensures { run_call result log.new ≡ exported_run session.now log.old }
{
    run_number(run(session, log))
}

// The same in the box.
#[unsafe(no_mangle)]
pub extern "C" fn at88sc1608_box_run(session: &[u8], log: &mut [u8]) -> u64
    ensures { run_call result log.new ≡ exported_box_run session.now log.old }
{
    run_number(box_run(session, log))
}

// One command: the refusal's number, or 0, 2^8 times the response's length, 2^24 times the tries left and 2^32 times the kind that is
// answered.
#[unsafe(no_mangle)]
pub extern "C" fn at88sc1608_command(
    card: &mut [u8],
    state: &mut [u8],
    record: &[u8],
    response: &mut [u8],
) -> u64
    ensures { command_call result card.new state.new response.new
        ≡ exported_command card.old state.old «record».now response.old }
{
    let before = read_state(state);
    let replied = command(card, before, record, response);
    write_state(state, replied.map(|reply| reply.state));
    match replied {
        Ok(reply) => reply_number(Ok(reply.size), reply.tries, reply.kind),
        Err(why) => reply_number(Err(why), 0, 0),
    }
}

// An answer of a log, from 0: the refusal's number, or 0, 2^8 times its length, 2^24 times the entry headers that were read and 2^40 times
// where it begins.
#[unsafe(no_mangle)]
pub extern "C" fn at88sc1608_answer(log: &[u8], number: u64) -> u64
    ensures { result ≡ exported_answer (model.fetch log.now number) }
{
    let fetched = fetch(log, number as usize);
    match fetched.found {
        Ok(place) => place_number(Ok((place.from, place.length)), fetched.headers),
        Err(why) => place_number(Err(why), fetched.headers),
    }
}

// A session written: the refusal's number, or 0, and 2^8 times the session's length.
#[unsafe(no_mangle)]
pub extern "C" fn at88sc1608_write_session(
    card: &[u8],
    title: &[u8],
    records: &[u8],
    count: u64,
    session: &mut [u8],
) -> u64
    ensures { run_call result session.new
        ≡ exported_writing (parts card.now title.now records.now count) session.old }
{
    run_number(write_session(card, title, records, count as usize, session))
}

// A session mended in place: the refusal's number, or 0, 2^8 times the count of its records and 2^32 times where they start.
#[unsafe(no_mangle)]
pub extern "C" fn at88sc1608_mend(session: &mut [u8]) -> u64
    ensures { run_call result session.new ≡ exported_mending session.old }
{
    match mend(session) {
        Ok(mended) => mended_number(Ok((mended.count, mended.start))),
        Err(why) => mended_number(Err(why)),
    }
}

// The same by trying every start in turn, which can take seconds; to compare with.
#[unsafe(no_mangle)]
pub extern "C" fn at88sc1608_mend_by_search(session: &mut [u8]) -> u64
    ensures { run_call result session.new ≡ exported_mending session.old }
{
    match mend_by_search(session) {
        Ok(searched) => mended_number(Ok((searched.count, searched.start))),
        Err(why) => mended_number(Err(why)),
    }
}
