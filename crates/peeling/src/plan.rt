// The plan of a decoding (specs/Plan.antt), and the kinds of positions.
// A kind is a number, not an enum with one: that has twice the bytes, and the stack that the header gives close has no room for 6 KB more.
ghost use Rattle.std.specs.Prelude.{◌≡◌, length};
ghost use Rattle.ccsds.specs.inner.Layout.{max_n, max_m};

use ccsds::code::Code;

// A step: its check row and the position that it settles.
#[derive(Clone, Copy)]
pub struct Step {
    pub row: u16,
    pub position: u16,
}

// Of each position its kind, of each pivot its position, the steps, and whether a step used a check row.
#[derive(Drop)]
pub struct Plan {
    pub kinds: [u16; Code::MAX_N],
    pub pivots: [u16; Code::MAX_N],
    pub steps: [Step; Code::MAX_M],
    pub used: [bool; Code::MAX_M],
    pub ghost kinds_len: { length kinds ≡ max_n },
    pub ghost pivots_len: { length pivots ≡ max_n },
    pub ghost steps_len: { length steps ≡ max_m },
    pub ghost used_len: { length used ≡ max_m },
}

// The last kind that is a step's; 0 is known, and t + 1 is settled by step t.
pub const LAST_STEP: usize = Code::MAX_M;

// Pivot u has kind FIRST_PIVOT + u.
pub const FIRST_PIVOT: usize = LAST_STEP + 1;

// The last kind of a pivot that no reduced row has.
pub const LAST_PIVOT: usize = LAST_STEP + Code::MAX_N;

// A pivot that reduced row h has is of kind FIRST_SOLVED + h.
pub const FIRST_SOLVED: usize = LAST_PIVOT + 1;

// The kind of a missing position that is neither settled nor put off.
pub const OPEN: u16 = 65535;
