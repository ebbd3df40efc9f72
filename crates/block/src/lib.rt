// Blocks: open and take; the crate closing has close. Built on the contracts of the codes and units alone.
#![tactic(auto)]

pub mod checks;
pub mod open;
pub mod status;
pub mod take;

// A block's record: its code's number, the bytes of a symbol, its protocol ID, its block number and its fill.
#[derive(Clone, Copy)]
pub struct Block {
    pub code: usize,
    pub w: usize,
    pub protocol: usize,
    pub lsc: usize,
    pub fill: usize,
}
