// Singleton pivots: a pivot from the forward pass that stands in no other row needs no column cleared.
ghost use Rattle.std.specs.Prelude.{◌≡◌, ◌<◌};
ghost use Rattle.elimination.specs.System.{SameCoefficients};
ghost use Rattle.elimination.specs.SharedUnknowns.{SharedMask, SharedMasks};
ghost use Rattle.elimination.specs.Kept.{Kept, ReducedAt};

use crate::forward::Step;
use crate::system::System;
use crate::{MAX_ROWS, MAX_WORDS, bits};

impl<'a> System<'a> {
    // A mask of the digits of word i that two rows have.
    fn shared_digits(&self, i: usize) -> u64
        requires { i < self.now.shape.words }
        ensures { SharedMask result self.now.rows.now self.now.shape.rows self.now.shape.words i }
    {
        let s = self.shape;
        let mut seen: u64 = 0;
        let mut shared: u64 = 0;
        for j in 0..s.rows {
            let w = self.rows[j * (s.words + 1) + i];
            shared |= seen & w;
            seen |= w;
        }
        shared
    }

    // The same for each word.
    fn shared_unknowns(&self, masks: &mut [u64; MAX_WORDS])
        ensures { SharedMasks masks.new self.now.rows.now self.now.shape.rows self.now.shape.words self.now.shape.words }
    {
        for i in 0..self.shape.words {
            masks[i] = self.shared_digits(i);
        }
    }

    // A step of the forward pass: its pivot becomes the row's pivot where the row has it and no other row has.
    fn set_singleton(&mut self, done: &mut [bool; MAX_ROWS], masks: &[u64; MAX_WORDS], step: Step)
        requires shared_masks { SharedMasks masks.now self.old.rows.now self.old.shape.rows self.old.shape.words self.old.shape.words }
        requires reduced_where { ReducedAt done.old self.old }
        ensures kept { Kept self.old self.new }
        ensures same_coefficients { SameCoefficients self.old.rows.now self.new.rows.now self.old.shape.words }
        ensures same_rhs { self.new.rhs.now ≡ self.old.rhs.now }
        ensures reduced_where_after { ReducedAt done.new self.new }
    {
        let s = self.shape;
        let r = step.row as usize;
        let p = step.pivot as usize;
        if r < s.rows && p / 64 < s.words && !bits::bit_at(masks, 0, p) && self.has_unknown(r, p) {
            self.rows[r * (s.words + 1) + s.words] = (p + 1) as u64;
            done[r] = true;
        }
    }

    // The same for each step.
    pub fn set_singletons(&mut self, done: &mut [bool; MAX_ROWS], steps: &[Step])
        requires { ReducedAt done.old self.old }
        ensures kept { Kept self.old self.new }
        ensures same_coefficients { SameCoefficients self.old.rows.now self.new.rows.now self.old.shape.words }
        ensures same_rhs { self.new.rhs.now ≡ self.old.rhs.now }
        ensures reduced_where_after { ReducedAt done.new self.new }
    {
        let mut masks = [0u64; MAX_WORDS];
        self.shared_unknowns(&mut masks);
        for step in steps {
            self.set_singleton(done, &masks, *step);
        }
    }
}
