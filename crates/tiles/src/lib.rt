// Tiles in the rows of a block's information symbols.
#![tactic(auto)]

pub mod checks;
pub mod lengths;
pub mod pack;
mod rows;
