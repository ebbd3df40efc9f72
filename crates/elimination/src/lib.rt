// Linear equations over packed rows, and Gauss-Jordan elimination on them, in place. Equation j is a row of words + 1 words and `width` bytes of a
// right-hand side: the row's first words hold 64 unknowns each, and its last word, the pivot word, holds the number of the unknown that is the
// row's pivot + 1, or 0: a lent word has no room for an Option. The words and the bytes are lent by the caller. What an unknown stands for is the
// caller's matter.
#![tactic(auto)]

ghost use Rattle.std.specs.Prelude.{length};
ghost use Rattle.elimination.specs.Fits.{Fits};
ghost use Rattle.elimination.specs.System.{SameSolutions};
ghost use Rattle.elimination.specs.Reduced.{Reduced};

use forward::Step;
use system::System;

pub mod parts; // parts of a buffer: exclusive or
pub mod bits; // unknowns of a row
pub mod solution; // whether the reduced form has a solution
mod system; // the equations in their buffers: a row added to others, a column cleared
mod weights; // forward pass: the rows' weights
mod active; // forward pass: the list of active rows
mod forward; // the forward pass
mod singletons; // pivots that stand in no other row
mod back_substitution; // every other row

// The most rows, and the most words of a row without the pivot word.
pub const MAX_ROWS: usize = 1024;

pub const MAX_WORDS: usize = 48;

// How many rows, of how many words without the pivot word, and how many bytes of right-hand side for each.
#[derive(Clone, Copy)]
pub struct Shape {
    pub rows: usize,
    pub words: usize,
    pub width: usize,
}

// Brings all rows into reduced form; the equations keep their solutions. The forward pass chooses an order and a pivot for each row, and back
// substitution goes over its order backwards, so that each row is added to others when it has hardly an unknown left. No row is left out, whatever
// the order was.
pub fn eliminate(rows: &mut [u64], rhs: &mut [u8], s: Shape)
    requires { Fits s (length rows.old) (length rhs.old) }
    ensures reduced { Reduced rows.new s.rows s.words s.rows }
    ensures same_solutions { SameSolutions rows.old rhs.old rows.new rhs.new s.rows s.words s.width }
{
    let mut system = System {
        rows,
        rhs,
        shape: s,
    };
    // arrays, since there is no heap
    let mut order = [Step { row: 0, pivot: 0 }; MAX_ROWS];
    let count = system.forward_pass(&mut order);
    let steps = &order[..count];
    let mut done = [false; MAX_ROWS];
    system.set_singletons(&mut done, steps);
    system.back_substitute(&mut done, steps);
    system.reduce_remaining(&mut done);
}
