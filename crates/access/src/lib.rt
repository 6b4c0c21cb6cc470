// The volatile state of the card, and who may read or write what.
#![tactic(auto)]

pub mod register;
pub mod rights;
pub mod volatile;
