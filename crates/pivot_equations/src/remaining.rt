// The check rows that no step used.
ghost use Rattle.std.specs.Prelude.{◌≡◌, ◌*◌, length};
ghost use Rattle.encoder.specs.inner.Positions.{checks};
ghost use Rattle.peeling.specs.Values.{HoldIs, Sides};

use encoder::positions::CheckRows;
use peeling::plan::Plan;
use symbol_sums::MAX_POSITIONS;

// Each of them adds up to zero.
pub fn hold(block: &CheckRows, plan: &Plan, symbols: &[u8]) -> bool
    requires { length symbols.now ≡ (checks block.now.shape).n * block.now.shape.w }
    ensures { HoldIs (checks block.now.shape) block.now.shape.w plan.now symbols.now result }
{
    let mut xs = [0u16; MAX_POSITIONS];
    // a copy, by which the loop over the rows knows what the code's a is: without it close with nothing missing is 8 % slower at W 16
    let rows = *block;
    for j in 0..rows.shape.layout.m {
        if !plan.used[j] {
            let n = rows.of_row(j, &mut xs);
            if !symbol_sums::cancels(rows.shape.w, &xs[..n], symbols) {
                return false;
            }
        }
    }
    true
}

// Their sums, one after the other.
pub fn sums(block: &CheckRows, plan: &Plan, symbols: &[u8], bytes: &mut [u8])
    requires symbols_len { length symbols.now ≡ (checks block.now.shape).n * block.now.shape.w }
    requires bytes_len { length bytes.old ≡ (checks block.now.shape).m * block.now.shape.w }
    ensures { Sides (checks block.now.shape) block.now.shape.w plan.now symbols.now bytes.new }
{
    let mut xs = [0u16; MAX_POSITIONS];
    let mut i = 0;
    for j in 0..block.shape.layout.m {
        if !plan.used[j] {
            let n = block.of_row(j, &mut xs);
            symbol_sums::put_sum(block.shape.w, i, None, &xs[..n], symbols, bytes);
            i += 1;
        }
    }
}
