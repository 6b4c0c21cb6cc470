// Parts of a log written into a space.
ghost use Rattle.std.specs.Prelude.{◌≡◌, ◌+◌, ◌≤◌, length};
ghost use Rattle.std.proofs.lemmas.List.Edits.{sets};
ghost use Rattle.model.specs.Log.{zoned, header_bytes, header_length, log_trailer};

use header::names_zone;
use record::number;
use trailer::put;

// helper: an entry's kind, its response's length, and the zone where the kind names it; the response's place.
pub fn put_header(log: &mut [u8], at: usize, kind: u8, response: usize, zone: u8) -> usize
    requires { at + 4 ≤ length log.old }
    ensures { (log.new ≡ sets log.old at (header_bytes zoned kind response zone)) × (result ≡ at + header_length zoned kind) }
{
    log[at] = kind;
    number::put::<2>(log, at + 1, response);
    if names_zone(kind) {
        log[at + 3] = zone;
        return at + 4;
    }
    at + 3
}

// helper: the trailer.
pub fn put_trailer(log: &mut [u8], at: usize, offset: usize, count: usize)
    requires { at + 8 ≤ length log.old }
    ensures { log.new ≡ sets log.old at (log_trailer zoned offset count) }
{
    put(log, at, offset, count, b'L', b'P');
}
