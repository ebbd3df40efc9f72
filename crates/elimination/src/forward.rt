// The forward pass: each row in turn is added to the other active rows that have its pivot. It chooses rows and pivots so that few additions are
// needed in all. Nothing is proved of how well that goes: each addition keeps the solutions.
ghost use Rattle.std.specs.Prelude.{◌/◌, ◌≤◌, ◌<◌, IfSome, slice_index};
ghost use Rattle.elimination.specs.Kept.{Kept};

use crate::active::Active;
use crate::system::System;
use crate::weights::lightest_row;
use crate::{MAX_ROWS, bits};

// A step's row and pivot.
#[derive(Clone, Copy)]
pub struct Step {
    pub row: u16,
    pub pivot: u16,
}

impl<'a> System<'a> {
    // The first place from i on in the list of the active rows whose row has unknown p.
    fn next_active(&self, active: &Active, p: usize, i: usize) -> Option<usize>
        requires { p / 64 < self.now.shape.words }
        ensures { IfSome result (λ k. (i ≤ k) × ((k < active.now.count) × (slice_index active.now.rows k < self.now.shape.rows))) }
    {
        // taken out first, so that the loop doesn't read them again for each row
        let rows: &[u64] = self.rows;
        let s = self.shape;
        for k in i..active.count {
            let j = active.rows[k] as usize;
            if j < s.rows && bits::bit_at(rows, j * (s.words + 1), p) {
                return Some(k);
            }
        }
        None
    }

    // Adds row r to each other active row that has unknown p, and retires it. It stays out of line: within eliminate, where more is live, the search
    // is up to 28 % slower at some addresses.
    #[inline(never)]
    fn clear_active(&mut self, active: &mut Active, r: usize, p: usize)
        requires { (p / 64 < self.old.shape.words) × (r < self.old.shape.rows) }
        ensures fewer { active.new.count ≤ active.old.count }
        ensures kept { Kept self.old self.new }
    {
        let mut place = None;
        let mut from = 0;
        // as in clear_column: a test and a call in one `for` are slower
        while let Some(i) = self.next_active(active, p, from) {
            let j = active.rows[i] as usize;
            if j == r {
                place = Some(i);
            } else {
                self.add_row(r, j);
                active.weigh_sum(r, j);
            }
            from = i + 1;
        }
        active.retire(r, place);
    }

    // One step: the pivot of row r is its lowest unknown, which goes from each other active row. A row without unknowns is retired alone.
    fn forward_step(&mut self, active: &mut Active, r: usize) -> Option<Step>
        requires { r < self.old.shape.rows }
        ensures fewer { active.new.count ≤ active.old.count }
        ensures kept { Kept self.old self.new }
    {
        match self.lowest(r) {
            Some(p) => {
                self.clear_active(active, r, p);
                Some(Step {
                    row: r as u16,
                    pivot: p as u16,
                })
            }
            None => {
                active.retire(r, None);
                None
            }
        }
    }

    // At most one step for each row, each with a row of least weight among the active ones. Returns the number of steps with a pivot, which are in
    // `order`.
    pub fn forward_pass(&mut self, order: &mut [Step; MAX_ROWS]) -> usize
        ensures upper_bound { result ≤ self.old.shape.rows }
        ensures kept { Kept self.old self.new }
    {
        let m = self.shape.rows;
        let mut active = Active {
            weights: [0; MAX_ROWS],
            rows: [0; MAX_ROWS],
            count: 0,
        };
        active.list(self);
        let mut from = 0;
        let mut enough = 1;
        let mut count = 0;
        for _t in 0..m {
            let Some(r) = lightest_row(&active.weights[..m], from, enough) else {
                break;
            };
            from = r;
            enough = active.weights[r];
            if let Some(step) = self.forward_step(&mut active, r) {
                order[count] = step;
                count += 1;
            }
        }
        count
    }
}
