// Records: the decoder on a part of a slice, the refusals, and the numbers of the formats.
#![tactic(auto)]

pub mod decoder;
pub mod number;
pub mod refusal;
