// The equations for the pivots that peeling put off. Each symbol is a known one plus a sum of pivots, and the check rows that no step used are
// linear equations for these.
#![tactic(auto)]

pub mod rows; // how many rows there are, and of how many words
pub mod system; // what they are made from
mod restore; // the steps once more, with the pivots put in
mod express; // which pivots each step's symbol and each unused check row depends on
pub mod remaining; // the check rows that no step used: their sums
