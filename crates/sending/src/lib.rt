// What is sent: a symbol is shown, and written as a unit.
#![tactic(auto)]

pub mod show;
pub mod writer;
