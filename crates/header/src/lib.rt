// The header of an entry of a log, by the entry's kind byte.
#![tactic(auto)]

ghost use Rattle.std.specs.Prelude.{◌≡◌};
ghost use Rattle.model.specs.Log as model;

// Whether the header names the zone: for kinds 4 and 5, also plus 128.
pub fn names_zone(kind: u8) -> bool
    ensures { result ≡ model.names_zone kind }
{
    kind % 128 / 2 == 2
}

// How many bytes it has.
pub fn header_length(kind: u8) -> usize
    ensures { result ≡ model.header_length model.zoned kind }
{
    if names_zone(kind) { 4 } else { 3 }
}
