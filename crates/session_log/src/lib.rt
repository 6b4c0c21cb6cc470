// The log: its entries and trailer written, a log checked, an answer found in it.
#![tactic(auto)]

pub mod check;
pub mod find;
pub mod write;
