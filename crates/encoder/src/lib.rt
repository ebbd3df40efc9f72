// The encoder: the positions of a check row, and encode.
#![tactic(auto)]

pub mod encode;
pub mod positions;
