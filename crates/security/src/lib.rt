// Passwords, authentication and fuses, and the attempts counters that guard them.
#![tactic(auto)]

pub mod authentication;
pub mod counter;
pub mod fuse;
pub mod password;
pub mod report;
