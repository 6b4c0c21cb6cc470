// The volatile state: what a card keeps beside its bytes while it has power.
ghost use Rattle.std.specs.Prelude.{◌≡◌, cond, ◌+◌, ◌<◌};
ghost use Rattle.model.specs.Volatile.{power_up, is_active, is_begun, is_granted};
ghost use Rattle.model.specs.Volatile as model;
ghost use Rattle.access.specs.VolatileState.{active_of, authentication_of, volatile_of};

// The number of a zone and that of a password set, each from 0 to 7: two types, so that neither passes for the other.
#[derive(Clone, Copy, Debug, PartialEq, Eq)]
pub struct Zone(pub u8);

#[derive(Clone, Copy, Debug, PartialEq, Eq)]
pub struct PwSet(pub u8);

impl PwSet {
    // The selectors of its write password and of its read password.
    pub fn write_selector(self) -> u8
        ensures { result ≡ self.0 }
    {
        self.0
    }

    pub fn read_selector(self) -> u8
        requires { self.0 < 8 }
        ensures { result ≡ 8 + self.0 }
    {
        8 + self.0
    }
}

#[derive(Clone, Copy, PartialEq, Eq)]
pub enum Authentication {
    Idle,
    Begun,
    Granted,
}

#[derive(Clone, Copy)]
pub struct Volatile {
    pub zone: Zone,
    // The selector of the active password: below 8 the write password of that set, 8 more the read password.
    pub active: Option<u8>,
    pub authentication: Authentication,
}

impl Volatile {
    pub fn power_up() -> Volatile
        ensures { volatile_of result ≡ power_up }
    {
        Volatile {
            zone: Zone(0),
            active: None,
            authentication: Authentication::Idle,
        }
    }

    // The state with another zone, another active password, another authentication.
    pub fn selecting(self, zone: Zone) -> Volatile
        ensures { volatile_of result ≡ model.selecting (volatile_of self) zone.0 }
    {
        Volatile { zone, ..self }
    }

    pub fn activating(self, active: Option<u8>) -> Volatile
        ensures { volatile_of result ≡ model.activating (volatile_of self) (active_of active) }
    {
        Volatile { active, ..self }
    }

    pub fn authenticating(self, authentication: Authentication) -> Volatile
        ensures { volatile_of result ≡ model.authenticating (volatile_of self) (authentication_of authentication) }
    {
        Volatile {
            authentication,
            ..self
        }
    }

    // Whether the password of this selector is the active one.
    pub fn is_active(self, selector: u8) -> bool
        ensures { result ≡ is_active (active_of self.active) selector }
    {
        is_active(self.active, selector)
    }

    pub fn is_begun(self) -> bool
        ensures { result ≡ is_begun (authentication_of self.authentication) }
    {
        is_begun(self.authentication)
    }

    pub fn is_granted(self) -> bool
        ensures { result ≡ is_granted (authentication_of self.authentication) }
    {
        is_granted(self.authentication)
    }
}

// The same of the part of a state that decides.
pub fn is_active(active: Option<u8>, selector: u8) -> bool
    ensures { result ≡ is_active (active_of active) selector }
{
    active == Some(selector)
}

pub fn is_begun(authentication: Authentication) -> bool
    ensures { result ≡ is_begun (authentication_of authentication) }
{
    authentication == Authentication::Begun
}

pub fn is_granted(authentication: Authentication) -> bool
    ensures { result ≡ is_granted (authentication_of authentication) }
{
    authentication == Authentication::Granted
}
