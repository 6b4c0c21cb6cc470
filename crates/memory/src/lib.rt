// The bytes of the zones, read and written.
#![tactic(auto)]

pub mod page;
pub mod zone;
