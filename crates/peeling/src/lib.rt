// Peeling: a check row with one open symbol restores it, a step; where there is no such row, an open symbol is put off as a pivot, zero for the
// time being.
#![tactic(auto)]

mod hints; // which check rows to try next
pub mod peel; // steps and pivots
pub mod plan; // what a plan holds
pub mod states; // what is known of each position
