// Many sessions from standard input, each behind its length in four bytes, and their listings one after another.
#![tactic(auto)]

ghost use Rattle.std.specs.Prelude.{◌<◌, ◌^◌};

use input::read_full;
use listing::print;
use record::number;
use sizes::TEXT_SPACE;
use std::io;
use std::io::{Read, Write};

fn print_one<W: Write>(out: &mut W, session: &[u8]) -> io::Result<()> {
    let mut text = [0u8; TEXT_SPACE];
    let written = print(session, &mut text);
    out.write_all(&text[..written])
}

// Every session; the last may be cut short.
fn print_each<W: Write>(out: &mut W, input: &[u8]) -> io::Result<()> {
    let mut rest = input;
    while let Some((length, behind)) = rest.split_at_checked(4) {
        let (session, others) = behind.split_at(number::get::<4>(length, 0).min(behind.len()));
        print_one(out, session)?;
        rest = others;
    }
    Ok(())
}

// The sessions on a stream, of which as many bytes are read as the space holds. How many that are is a parameter: a proof over so long an
// array would go through it byte by byte.
fn print_read<const SPACE: usize, R: Read, W: Write>(from: &mut R, out: &mut W) -> io::Result<()>
    requires { SPACE < 2 ^ 63 }
{
    let mut input = [0u8; SPACE];
    let read = read_full(from, &mut input)?;
    print_each(out, &input[..read])
}

fn main(rt: HostRuntime) -> io::Result<()> {
    print_read::<524288, _, _>(&mut rt.stdin(), &mut rt.stdout())
}
