// A session from standard input, run, and its listing on standard output. With the argument --box it is run as the box runs it.
#![tactic(auto)]

ghost use Rattle.listing.specs.Listing.{PrintedText};
ghost use Rattle.box_listing.specs.BoxListing.{printed_for};

use box_listing::print_boxed;
use input::read_full;
use listing::print;
use sizes::{INPUT, TEXT_SPACE};
use std::env::Env;
use std::io;
use std::io::Write;

// Whether the first argument is --box.
fn is_boxed(rt: &impl Env) -> bool {
    let mut argument = [0u8; 5];
    matches!(rt.arg(1, &mut argument), Ok(length) if argument[..length] == b"--box"[..])
}

// At the front of the text space, whole: what is printed of a session, for the box or for an exam machine. The switch is no function
// parameter, since the clause says by it which text is printed.
fn print_for(boxed: bool, session: &[u8], text: &mut [u8; TEXT_SPACE]) -> usize
    ensures { PrintedText (printed_for boxed session.now) text.old result text.new }
{
    if boxed {
        print_boxed(session, text)
    } else {
        print(session, text)
    }
}

fn main(rt: HostRuntime) -> io::Result<()> {
    let boxed = is_boxed(&rt);
    let mut input = [0u8; INPUT];
    let read = read_full(&mut rt.stdin(), &mut input)?;
    let mut text = [0u8; TEXT_SPACE];
    let written = print_for(boxed, &input[..read], &mut text);
    rt.stdout().write_all(&text[..written])
}
