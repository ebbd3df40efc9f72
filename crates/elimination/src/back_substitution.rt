// Back substitution: each row gets its pivot, and that column is cleared in the other rows, whatever the order.
ghost use Rattle.std.specs.Prelude.{◌+◌, ◌*◌, ◌<◌};
ghost use Rattle.elimination.specs.Bits.{row_bit};
ghost use Rattle.elimination.specs.Reduced.{Reduced};
ghost use Rattle.elimination.specs.PivotStep.{PivotIs, RowMarked};
ghost use Rattle.elimination.specs.Kept.{Kept, Stepped, ReducedAt};

use crate::MAX_ROWS;
use crate::forward::Step;
use crate::system::System;

impl<'a> System<'a> {
    // A pivot for row r: `guess`, if it has that, else its lowest unknown.
    fn choose_pivot(&self, r: usize, guess: usize) -> Option<usize>
        requires { r < self.now.shape.rows }
        ensures { PivotIs (row_bit self.now.rows.now (r * (self.now.shape.words + 1))) (64 * self.now.shape.words) result }
    {
        if guess / 64 < self.shape.words && self.has_unknown(r, guess) {
            return Some(guess);
        }
        self.lowest(r)
    }

    // The pivot step at row r: it gets a pivot, which is an unknown that it has, and the column of that is cleared in every other row. A row
    // without unknowns gets pivot word 0.
    fn pivot_step(&mut self, r: usize, guess: usize)
        requires { r < self.old.shape.rows }
        ensures { Stepped self.old self.new r }
    {
        let s = self.shape;
        let k = r * (s.words + 1) + s.words;
        match self.choose_pivot(r, guess) {
            Some(p) => {
                self.rows[k] = (p + 1) as u64;
                self.clear_column(r, p);
            }
            None => {
                self.rows[k] = 0;
            }
        }
    }

    // The same, where row r is not reduced yet. Which rows are reduced stands beside the system: a struct of both would owe each method a word on
    // what it lends.
    fn reduce_row(&mut self, done: &mut [bool; MAX_ROWS], r: usize, guess: usize)
        requires r_lt_rows { r < self.old.shape.rows }
        requires reduced_where { ReducedAt done.old self.old }
        ensures kept { Kept self.old self.new }
        ensures reduced_where_after { ReducedAt done.new self.new }
        ensures row_marked { RowMarked done.old done.new r }
    {
        if !done[r] {
            self.pivot_step(r, guess);
            done[r] = true;
        }
    }

    // The same for the row and the pivot of each step of the forward pass, from the last to the first.
    pub fn back_substitute(&mut self, done: &mut [bool; MAX_ROWS], steps: &[Step])
        requires { ReducedAt done.old self.old }
        ensures kept { Kept self.old self.new }
        ensures reduced_where_after { ReducedAt done.new self.new }
    {
        for step in steps.iter().rev() {
            let r = step.row as usize;
            if r < self.shape.rows {
                self.reduce_row(done, r, step.pivot as usize);
            }
        }
    }

    // Every row that is not reduced yet.
    pub fn reduce_remaining(&mut self, done: &mut [bool; MAX_ROWS])
        requires { ReducedAt done.old self.old }
        ensures kept { Kept self.old self.new }
        ensures reduced { Reduced self.new.rows.now self.old.shape.rows self.old.shape.words self.old.shape.rows }
    {
        for j in 0..self.shape.rows {
            self.reduce_row(done, j, 0);
        }
    }
}
