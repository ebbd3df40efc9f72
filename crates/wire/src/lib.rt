// Numbers and bytes as they stand in a unit: big-endian pairs, SDNV numbers, and bytes put into an output. It knows nothing of units.
#![tactic(auto)]

pub mod big_endian;
pub mod copy;
pub mod put;
pub mod sdnv;
