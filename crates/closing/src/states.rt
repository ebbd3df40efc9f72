// What the decoder is told of each position of a block, and the marks from what it tells.
ghost use Rattle.std.specs.Prelude.{◌≡◌, cond, eqb, ◌≤◌, length};
ghost use Rattle.ccsds.specs.Tables.{code_of};
ghost use Rattle.block.specs.Status.{status_by};
ghost use Rattle.closing.specs.Close.{is_known, mark_after};
ghost use Rattle.closing.specs.inner.States.{StatesAre, MarksAre};

use block::status::{FILLED, HEARD, MISSING, Status};
use block::{Block, status};
use peeling::states::{DETERMINED, KNOWN, LEFT};

// What the decoder is told of a position with this mark.
fn state(mark: u8) -> u8
    ensures { result ≡ cond (is_known (status_by mark)) 1 0 }
{
    match status::of(mark) {
        Status::Heard => KNOWN,
        Status::Missing => LEFT,
    }
}

// The mark after a verdict, from the mark before it and from what the decoder told.
fn after(mark: u8, state: u8) -> u8
    ensures { result ≡ mark_after (status_by mark) (eqb state 2) }
{
    match status::of(mark) {
        Status::Heard => HEARD,
        Status::Missing => if state == DETERMINED { FILLED } else { MISSING },
    }
}

// A block's record with its code's k: the positions from its fill to before k are idle.
#[derive(Clone, Copy)]
pub struct Filled {
    pub block: Block,
    pub k: usize,
    pub ghost information: { k ≡ (code_of block.code).k },
    pub ghost fill: { block.fill ≤ k },
}

impl Filled {
    // What the decoder is told of each position: idle ones are known.
    pub fn put_states(self, marks: &[u8], states: &mut [u8])
        requires within { self.k ≤ length marks.now }
        requires states_len { length states.old ≡ length marks.now }
        ensures { StatesAre self.block marks.now states.new }
    {
        for (i, mark) in marks.iter().enumerate() {
            states[i] = state(*mark);
        }
        states[self.block.fill..self.k].fill(KNOWN);
    }

    // The marks after a verdict.
    pub fn set_marks(self, states: &[u8], marks: &mut [u8])
        requires within { self.k ≤ length marks.old }
        requires states_len { length states.now ≡ length marks.old }
        ensures { MarksAre self.block marks.old states.now marks.new }
    {
        for (i, mark) in marks.iter_mut().enumerate() {
            *mark = after(*mark, states[i]);
        }
        marks[self.block.fill..self.k].fill(MISSING);
    }
}
