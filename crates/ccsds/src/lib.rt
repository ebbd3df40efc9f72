// The standard's codes, the length of a unit, and the refusals that calls share. It knows nothing of blocks.
#![tactic(auto)]

pub mod checks;
pub mod code;
pub mod refusal;
pub mod tables;
pub mod unit_size;
