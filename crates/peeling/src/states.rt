// What the decoder is told of each position of a block, and what it tells (specs/States.antt).
// Numbers, not an enum: any other is taken for missing too, as `decoder::solve::solve` says.

// Told: the symbol at the position is known. Any other number: it is missing.
pub const KNOWN: u8 = 1;

// Told afterwards of a missing position: its symbol is determined, and filled in.
pub const DETERMINED: u8 = 2;

// Or it is not.
pub const LEFT: u8 = 0;
