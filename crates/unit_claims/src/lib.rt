// What holds of every unit, beside the contracts; and the reader of the units that a block expects, which rests on it.
#![tactic(auto)]

pub mod expected;
