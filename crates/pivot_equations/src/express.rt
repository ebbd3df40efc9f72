// What each symbol is in terms of the pivots.
ghost use Rattle.std.specs.Prelude.{◌≡◌, ◌+◌, ◌*◌, ◌/◌, ◌<◌, length};
ghost use Rattle.ccsds.specs.Tables.{code_of};
ghost use Rattle.peeling.specs.Plan.{kind_of};
ghost use Rattle.pivot_equations.specs.Express.{all_rows, RowIs, SameFrom, SameBelow, flip_row_bit, kind_but, ReadsAll};
ghost use Rattle.symbol_sums.specs.Gather.{max_positions};
ghost use Rattle.ccsds.specs.inner.Layout.{max_n};
ghost use Rattle.pivot_equations.specs.OfSystem.{checks_of, IsPlanned, IsUnsolved, HasRoom, HasPlaces, StepsHere, RestHere, ReadsKind, AddsKind, AreWithin};

use crate::system::System;
use peeling::plan::{FIRST_PIVOT, FIRST_SOLVED, LAST_PIVOT, LAST_STEP};
use symbol_sums::MAX_POSITIONS;

// Flips unknown u in the row at `base`.
fn flip(words: &mut [u64], base: usize, u: usize)
    requires { base + u / 64 < length words.old }
    ensures { words.new ≡ flip_row_bit words.old base u }
{
    let k = base + u / 64;
    words[k] = words[k] ^ 1 << (u % 64);
}

// Row `row` of the equations, which is to be made from check row `check`, without position `but` if one is left out.
#[derive(Clone, Copy)]
struct Target {
    row: usize,
    check: usize,
    but: Option<usize>,
}

impl System<'_> {
    // Row t gets the expression of position p added.
    fn add(&self, t: usize, p: usize, words: &mut [u64])
        requires words_len { AreWithin self.now words.old }
        requires t_bound { (t < all_rows self.now.rows) × (p < max_n) }
        requires reads { ReadsKind self.now words.old t (kind_of self.now.plan.now p) }
        ensures { AddsKind self.now words.old words.new t (kind_of self.now.plan.now p) }
    {
        let packed = self.rows.packed;
        let stride = packed + 1;
        let kind = self.plan.kinds[p] as usize;
        if kind <= self.rows.early {
            return;
        }
        if kind <= LAST_STEP {
            elimination::parts::xor_words(words, (kind - 1) * stride, t * stride, packed);
            return;
        }
        if kind <= LAST_PIVOT {
            flip(words, t * stride, kind - FIRST_PIVOT);
            return;
        }
        let h = (kind - FIRST_SOLVED) * stride;
        let u = words[h + packed] as usize;
        elimination::parts::xor_words(words, h, t * stride, packed);
        flip(words, t * stride, u - 1);
    }

    // The same of position x, unless it is the one that is left out.
    fn add_other(&self, t: usize, but: Option<usize>, x: usize, words: &mut [u64])
        requires words_len { AreWithin self.now words.old }
        requires t_bound { (t < all_rows self.now.rows) × (x < max_n) }
        requires reads { ReadsKind self.now words.old t (kind_but self.now.plan.now but x) }
        ensures { AddsKind self.now words.old words.new t (kind_but self.now.plan.now but x) }
    {
        if Some(x) == but {
            return;
        }
        self.add(t, x, words);
    }

    // The row becomes the sum of the expressions of the check row's other positions.
    fn row(&self, e: Target, xs: &mut [u16; MAX_POSITIONS], words: &mut [u64])
        requires words_len { AreWithin self.now words.old }
        requires row_bound { (e.row < all_rows self.now.rows) × (e.check < (code_of self.now.block.now.shape.number).m) }
        requires reads_all { ReadsAll (checks_of self.now) self.now.plan.now words.old self.now.rows.packed self.now.rows.early (all_rows self.now.rows) e.row e.but }
        ensures xs_len { length xs.new ≡ max_positions }
        ensures row_is { RowIs (checks_of self.now) self.now.plan.now words.old words.new self.now.rows.packed self.now.rows.early e.row e.check e.but }
    {
        let stride = self.rows.packed + 1;
        let at = e.row * stride;
        words[at..at + stride].fill(0);
        let n = self.block.of_row(e.check, xs);
        // a copy: what is behind a reference would be read again for each position
        let system = *self;
        for x in &xs[..n] {
            system.add_other(e.row, e.but, usize::from(*x), words);
        }
    }

    // The steps from `early` on.
    pub fn steps(&self, words: &mut [u64])
        requires planned { IsPlanned self.now }
        requires room { HasRoom self.now (length words.old) }
        requires places { HasPlaces self.now words.old }
        ensures steps_expressed { StepsHere self.now words.new }
        ensures same_from { SameFrom words.old words.new self.now.rows.packed self.now.rows.steps }
    {
        let mut xs = [0u16; MAX_POSITIONS];
        for t in self.rows.early..self.rows.steps {
            let step = self.plan.steps[t];
            let e = Target {
                row: t,
                check: step.row as usize,
                but: Some(step.position as usize),
            };
            self.row(e, &mut xs, words);
        }
    }

    // The check rows that no step used, after the steps.
    pub fn remaining(&self, words: &mut [u64])
        requires planned { IsPlanned self.now }
        requires room { HasRoom self.now (length words.old) }
        requires places { HasPlaces self.now words.old }
        requires unsolved { IsUnsolved self.now }
        ensures rest_expressed { RestHere self.now words.new }
        ensures same_below { SameBelow words.old words.new self.now.rows.packed self.now.rows.steps }
    {
        let mut xs = [0u16; MAX_POSITIONS];
        let mut t = self.rows.steps;
        for j in 0..self.block.shape.layout.m {
            if !self.plan.used[j] {
                let e = Target {
                    row: t,
                    check: j,
                    but: None,
                };
                self.row(e, &mut xs, words);
                t += 1;
            }
        }
    }
}
