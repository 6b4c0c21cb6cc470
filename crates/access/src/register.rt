// The access register of a zone: which demands it makes, and of which password set.
ghost use Rattle.std.specs.Prelude.{◌≡◌};
ghost use Rattle.access.specs.Register.{fields_of};

use crate::volatile::PwSet;

// A field is true where the demand is enabled, that is, where its bit is 0.
#[derive(Clone, Copy)]
pub struct Register {
    pub wpe: bool,
    pub rpe: bool,
    pub ate: bool,
    pub set: PwSet,
    pub mdf: bool,
    pub pgo: bool,
}

// No `From`, which would say the same by a ghost member, a line longer.
pub fn fields(register: u8) -> Register
    ensures { result ≡ fields_of register }
{
    Register {
        wpe: register / 128 % 2 == 0,
        rpe: register / 64 % 2 == 0,
        ate: register / 32 % 2 == 0,
        set: PwSet(register / 4 % 8),
        mdf: register / 2 % 2 == 0,
        pgo: register / 1 % 2 == 0,
    }
}
