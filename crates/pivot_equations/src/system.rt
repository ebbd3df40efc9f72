// The equations for the pivots of a block: where they come from.
ghost use Rattle.std.specs.Prelude.{◌≡◌, ◌+◌};
ghost use Rattle.encoder.specs.inner.Positions.{checks};

use crate::rows::Rows;
use encoder::positions::CheckRows;
use peeling::plan::Plan;

// A block's check rows, what was planned of them, and the rows of the equations, one for each step and for each check row that no step used. That
// the rows are those of the plan stays a clause: it names the states before, so that a field could only say that there are some.
#[derive(Clone, Copy)]
pub struct System<'a> {
    pub block: &'a CheckRows<'a>,
    pub plan: &'a Plan,
    pub rows: Rows,
    pub ghost all: { rows.steps + rows.rest ≡ (checks block.now.shape).m },
}
