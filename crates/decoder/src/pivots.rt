// The pivots.
ghost use Rattle.std.specs.Prelude.{◌≡◌, ℕ, ◌+◌, ◌*◌, ◌<◌, ◌≤◌, length};
ghost use Rattle.elimination.specs.Reduced.{pivot_word};
ghost use Rattle.encoder.specs.inner.Positions.{checks};
ghost use Rattle.peeling.specs.Plan.{pivot_of, Unsolved};
ghost use Rattle.pivot_equations.specs.Express.{all_rows, Planned};
ghost use Rattle.decoder.specs.Pivots.{Put, PutRoom, PutOne, AllSolvedIs};
ghost use Rattle.ccsds.specs.inner.Layout.{max_n, max_m};

use encoder::positions::CheckRows;
use peeling::plan::{FIRST_SOLVED, LAST_PIVOT, Plan};
use pivot_equations::rows::Rows;

// Where row steps + i of the reduced rows has a pivot, its symbol is that row's right-hand side.
fn put_one(
    w: usize,
    r: Rows,
    i: usize,
    words: &[u64],
    bytes: &[u8],
    plan: &mut Plan,
    symbols: &mut [u8],
)
    requires { PutRoom w r i words.now (length bytes.now) plan.old (length symbols.old) }
    ensures { PutOne w r i words.now bytes.now plan.old symbols.old plan.new symbols.new }
{
    let h = r.steps + i;
    let v = words[h * (r.packed + 1) + r.packed] as usize;
    if v == 0 {
        return;
    }
    let u = v - 1;
    let p = plan.pivots[u] as usize;
    buffers::put_from(symbols, p * w, bytes, i * w, w);
    plan.kinds[p] = (FIRST_SOLVED + h) as u16;
}

// The same for each of the reduced rows behind the steps.
pub fn put(
    block: &CheckRows,
    r: Rows,
    words: &[u64],
    bytes: &[u8],
    plan: &mut Plan,
    symbols: &mut [u8],
)
    requires planned { Planned (checks block.now.shape) plan.old r × Unsolved plan.old r.pivots }
    requires words_len { all_rows r * (r.packed + 1) ≤ length words.now }
    requires symbols_len { (length symbols.old ≡ (checks block.now.shape).n * block.now.shape.w) × (r.rest * block.now.shape.w ≤ length bytes.now) }
    requires by_index { (i : ℕ) → i < r.rest → pivot_word words.now r.packed (r.steps + i) ≤ r.pivots }
    ensures { Put (checks block.now.shape) block.now.shape.w r.packed r.steps r.rest r.pivots words.now bytes.now plan.old symbols.old plan.new symbols.new }
{
    for i in 0..r.rest {
        put_one(block.shape.w, r, i, words, bytes, plan, symbols);
    }
}

// Every pivot is solved.
pub fn all_solved(pivots: usize, plan: &Plan) -> bool
    requires few { pivots ≤ max_n }
    requires by_index { (u : ℕ) → u < pivots → pivot_of plan.now u < max_n }
    ensures { AllSolvedIs plan.now pivots result }
{
    plan.pivots[..pivots]
        .iter()
        .all(|p| plan.kinds[*p as usize] as usize > LAST_PIVOT)
}
