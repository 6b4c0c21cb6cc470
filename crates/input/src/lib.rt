// A stream read until a space is full or the stream ends.
#![tactic(auto)]

ghost use Rattle.std.specs.Io.{ReadsAtMost};

use std::io;
use std::io::Read;

// How many bytes stand at the front of the space. The library's reads fill a space exactly or go to the heap: none stops where either ends.
pub fn read_full<R: Read>(stream: &mut R, space: &mut [u8]) -> io::Result<usize>
    ensures { ReadsAtMost result space.new }
{
    let mut done = 0;
    while done < space.len() {
        let count = stream.read(&mut space[done..])?;
        if count == 0 {
            break;
        }
        done += count;
    }
    Ok(done)
}
