// A session written to standard output. Its parts are the arguments: the file of the card, the file of the records, their count in decimal
// digits, and the title, which may be left out. A refusal goes to standard error, and so does whatever else went wrong.
#![tactic(auto)]

ghost use Rattle.std.specs.Prelude.{◌≡◌, ◌≤◌, length, take};

use crate::count::count_of;
use input::read_full;
use refusal_text::{print_refusal, write_whole};
use sizes::{CARD, GREATEST_SESSION, INPUT};
use std::env::{Env, FillError};
use std::fs::File;
use std::io;
use std::io::{Read, Write};
use writer::write_session;

mod count;

// The file that an argument names, open for reading; or none, with the reason on standard error.
fn open_named(rt: &HostRuntime, argument: usize) -> io::Result<Option<File>> {
    let mut path = [0u8; 4096];
    let length = rt.arg(argument, &mut path).unwrap_or(0);
    let path = &path[..length];
    let name = match str::from_utf8(path) {
        Ok(name) => name,
        Err(why) => {
            rt.stderr().write_all(path)?;
            eprintln!(rt; ": {why}")?;
            return Ok(None);
        }
    };
    match File::open(rt, name) {
        Ok(file) => Ok(Some(file)),
        Err(why) => {
            eprintln!(rt; "{name}: {why}")?;
            Ok(None)
        }
    }
}

// The title, at the front of a space that is longer than any session; one that has no room there counts as the whole space.
fn read_title<'a>(rt: &impl Env, space: &'a mut [u8]) -> &'a [u8]
    ensures { length result.now ≤ length space.old }
{
    match rt.arg(4, space) {
        Ok(length) => &space[..length],
        Err(FillError::TooLong) => space,
        Err(FillError::NotPresent) => &[],
    }
}

// Both files are read with room for a byte more than is ever accepted, so that a longer one is seen to be longer.
fn write_from<R: Read>(
    rt: &HostRuntime,
    card_file: &mut R,
    records_file: &mut R,
    count: usize,
) -> io::Result<()> {
    let mut card = [0u8; CARD + 1];
    let length = read_full(card_file, &mut card)?;
    let card = &card[..length];
    let mut title = [0u8; INPUT];
    let title = read_title(rt, &mut title);
    let mut records = [0u8; INPUT];
    let length = read_full(records_file, &mut records)?;
    let records = &records[..length];
    let mut session = [0u8; GREATEST_SESSION];
    match write_session(card, title, records, count, &mut session) {
        Err(why) => print_refusal(&mut rt.stderr(), b"write-session", why),
        Ok(size) => write_whole(&mut rt.stdout(), &mut rt.stderr(), &session[..size]),
    }
}

fn main(rt: HostRuntime) -> io::Result<()> {
    let card_file = open_named(&rt, 1)?;
    let records_file = open_named(&rt, 2)?;
    let (Some(mut card), Some(mut records)) = (card_file, records_file) else {
        return Ok(());
    };
    let mut digits = [0u8; 20];
    match rt.arg(3, &mut digits) {
        Ok(length) => write_from(&rt, &mut card, &mut records, count_of(&digits[..length])),
        Err(FillError::TooLong) => eprintln!(rt; "count: File name too long"),
        Err(FillError::NotPresent) => eprintln!(rt; "count: Invalid argument"),
    }
}
