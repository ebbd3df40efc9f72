// The decoder: from the known symbols of a block, those of its missing symbols that they determine. Peeling restores symbols and puts some off as
// pivots; the equations for the pivots are reduced by elimination. What depends on no free pivot is filled. Where peeling puts nothing off, the unused
// check rows only have to add up to zero.
#![tactic(auto)]

mod dependence; // what depends on free pivots
mod missing; // what becomes of the missing positions: filled, or cleared
mod pivots; // the pivots that reduced rows have
pub mod solve; // all of it, for a block
