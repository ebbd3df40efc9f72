// Restoring what depends on the pivots.
ghost use Rattle.std.specs.Prelude.{◌≡◌, cond, ◌*◌, ◌<◌, ◌≤◌, eqb, length};
ghost use Rattle.algebra.specs.Sums.{sum};
ghost use Rattle.algebra.specs.Codeword.{byte_at};
ghost use Rattle.symbol_sums.specs.Gather.{Replaced, max_positions};
ghost use Rattle.encoder.specs.inner.Positions.{checks};
ghost use Rattle.peeling.specs.Values.{StepsHold, StepsRestored};
ghost use Rattle.pivot_equations.specs.Unused.{Others};
ghost use Rattle.pivot_equations.specs.OfSystem.{checks_of, IsPlanned};

use crate::system::System;
use encoder::positions::CheckRows;
use symbol_sums::MAX_POSITIONS;

// Moves those of the first n numbers that are not p to the front; returns how many. An array has no `retain`, and there is no heap.
fn others(xs: &mut [u16; MAX_POSITIONS], n: usize, p: usize) -> usize
    requires { n ≤ max_positions }
    ensures { Others xs.old n p xs.new result }
{
    let mut k = 0;
    for i in 0..n {
        let x = xs[i];
        xs[k] = x;
        k = if usize::from(x) == p { k } else { k + 1 };
    }
    k
}

// Position p becomes the sum of the other positions of check row j.
fn restore_by(
    block: &CheckRows,
    j: usize,
    p: usize,
    xs: &mut [u16; MAX_POSITIONS],
    symbols: &mut [u8],
)
    requires j_bound { (j < (checks block.now.shape).m) × (p < (checks block.now.shape).n) }
    requires symbols_len { length symbols.old ≡ (checks block.now.shape).n * block.now.shape.w }
    ensures xs_len { length xs.new ≡ max_positions }
    ensures replaced { Replaced (λ b. sum ((checks block.now.shape).has j) (λ x. cond (eqb x p) 0 (byte_at block.now.shape.w symbols.old b x)) (checks block.now.shape).n) block.now.shape.w p symbols.old symbols.new }
{
    let n = block.of_row(j, xs);
    let k = others(xs, n, p);
    symbol_sums::restore(block.shape.w, p, &xs[..k], symbols);
}

impl System<'_> {
    // Restores the positions of the steps from `early` on once more.
    pub fn restore_steps(&self, symbols: &mut [u8])
        requires planned { IsPlanned self.now }
        requires symbols_len { (length symbols.old ≡ (checks_of self.now).n * self.now.block.now.shape.w) × StepsHold (checks_of self.now) self.now.block.now.shape.w self.now.plan.now symbols.old self.now.rows.early }
        ensures { StepsRestored (checks_of self.now) self.now.block.now.shape.w self.now.plan.now symbols.old symbols.new self.now.rows.early self.now.rows.steps }
    {
        let mut xs = [0u16; MAX_POSITIONS];
        for t in self.rows.early..self.rows.steps {
            let step = self.plan.steps[t];
            restore_by(
                self.block,
                step.row as usize,
                step.position as usize,
                &mut xs,
                symbols,
            );
        }
    }
}
