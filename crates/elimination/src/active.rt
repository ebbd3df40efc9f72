// The active rows: those that the forward pass has not retired.
ghost use Rattle.std.specs.Prelude.{◌≡◌, ◌≤◌, ◌<◌};
ghost use Rattle.elimination.specs.declared.TheConstants.{MAX_ROWS};

use crate::MAX_ROWS;
use crate::system::System;
use crate::weights::{RETIRED, row_weight, sum_weight};

// The weight of each row, and the list of the active ones, in any order. A row that loses its last unknown stays in it. The list is an array with a
// count, since there is no heap.
#[derive(Drop)]
pub struct Active {
    pub weights: [u16; MAX_ROWS],
    pub rows: [u16; MAX_ROWS],
    pub count: usize,
    pub ghost few: { count ≤ MAX_ROWS },
}

impl Active {
    // Weighs each row, and lists those that have an unknown.
    pub fn list(&mut self, system: &System)
        ensures { self.new.count ≤ system.now.shape.rows }
    {
        let s = system.shape;
        self.count = 0;
        for j in 0..s.rows {
            let base = j * (s.words + 1);
            let weight = row_weight(&system.rows[base..base + s.words]);
            self.weights[j] = RETIRED;
            if weight > 0 {
                self.weights[j] = weight as u16;
                self.rows[self.count] = j as u16;
                self.count += 1;
            }
        }
    }

    // Weighs row j, to which row r was added.
    pub fn weigh_sum(&mut self, r: usize, j: usize)
        requires { (r < MAX_ROWS) × (j < MAX_ROWS) }
        ensures { self.new.count ≡ self.old.count }
    {
        self.weights[j] = sum_weight(self.weights[j], self.weights[r]);
    }

    // Takes row r, which stands at `place` of the list if it is known, out of it.
    pub fn retire(&mut self, r: usize, place: Option<usize>)
        requires { r < MAX_ROWS }
        ensures { self.new.count ≤ self.old.count }
    {
        self.weights[r] = RETIRED;
        if let Some(i) = place {
            if i < self.count {
                self.rows[i] = self.rows[self.count - 1];
                self.count -= 1;
            }
        }
    }
}
