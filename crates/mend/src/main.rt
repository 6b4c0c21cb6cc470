// A session from standard input, mended, on standard output. A refusal goes to standard error, and so does whatever else went wrong.
#![tactic(auto)]

use input::read_full;
use mender::mend;
use refusal_text::{print_refusal, write_whole};
use sizes::INPUT;
use std::io;

fn main(rt: HostRuntime) -> io::Result<()> {
    let mut input = [0u8; INPUT];
    let length = read_full(&mut rt.stdin(), &mut input)?;
    let session = &mut input[..length];
    match mend(session) {
        Err(why) => print_refusal(&mut rt.stderr(), b"mend", why),
        Ok(_) => write_whole(&mut rt.stdout(), &mut rt.stderr(), session),
    }
}
