// From a block's known symbols to the missing symbols that they determine. Peeling settles what it can and puts off the rest as pivots; the check rows
// that no step used give equations for the pivots; what then depends on no free pivot is filled.
ghost use Rattle.std.specs.Prelude.{◌≡◌, true, List, ℕ, ◌+◌, ◌*◌, ◌/◌, ◌<◌, ◌≤◌, length};
ghost use Rattle.ccsds.specs.Codes.{n_of};
ghost use Rattle.ccsds.specs.Tables.{code_of, Known};
ghost use Rattle.elimination.specs.System.{SameSolutions};
ghost use Rattle.elimination.specs.Reduced.{Reduced};
ghost use Rattle.elimination.specs.Consistency.{Consistent, ConsistentIs};
ghost use Rattle.encoder.specs.inner.Positions.{checks, sent_checks};
ghost use Rattle.peeling.specs.Values.{Peeled};
ghost use Rattle.decoder.specs.Equations.{behind, RowsRoom, Equations, Solvable, PutIn};
ghost use Rattle.decoder.specs.Outcome.{Outcome, Decoded};
ghost use Rattle.pivot_equations.specs.OfSystem.{checks_of, IsPlanned, IsUnsolved, HasRoom, StepsHere, RestHere};

use crate::{missing, pivots};
use ccsds::code::Code;
use encoder::positions;
use encoder::positions::{CheckRows, ClassTable};
use peeling::peel;
use peeling::peel::Progress;
use peeling::plan::{Plan, Step};
use pivot_equations::remaining;
use pivot_equations::rows::Rows;
use pivot_equations::system::System;

// Which pivots each step's symbol and each unused check row depends on.
fn express_all(system: &System, words: &mut [u64])
    requires planned { IsPlanned system.now × IsUnsolved system.now }
    requires room { HasRoom system.now (length words.old) }
    ensures steps_expressed { StepsHere system.now words.new }
    ensures rest_expressed { RestHere system.now words.new }
{
    system.steps(words);
    system.remaining(words);
}

// Reduces the rows behind the steps.
fn reduce_behind(r: Rows, w: usize, words: &mut [u64], bytes: &mut [u8])
    requires { RowsRoom r w (length words.old) (length bytes.old) }
    ensures same_solutions { SameSolutions (behind r.packed r.steps words.old) bytes.old (behind r.packed r.steps words.new) bytes.new r.rest r.packed w }
    ensures reduced { Reduced (behind r.packed r.steps words.new) r.rest r.packed r.rest }
{
    let from = r.steps * (r.packed + 1);
    let rows = r.rest;
    elimination::eliminate(
        &mut words[from..],
        bytes,
        elimination::Shape {
            rows,
            words: r.packed,
            width: w,
        },
    );
}

// The reduced rows behind the steps have a solution.
fn consistent_behind(r: Rows, w: usize, words: &[u64], bytes: &[u8]) -> bool
    requires rows_room { RowsRoom r w (length words.now) (length bytes.now) }
    requires reduced { Reduced (behind r.packed r.steps words.now) r.rest r.packed r.rest }
    ensures { ConsistentIs (behind r.packed r.steps words.now) bytes.now r.rest r.packed w result }
{
    let from = r.steps * (r.packed + 1);
    elimination::solution::consistent(
        &words[from..],
        bytes,
        elimination::Shape {
            rows: r.rest,
            words: r.packed,
            width: w,
        },
    )
}

// The equations of the pivots, reduced, in the rows behind the steps.
fn reduce(system: &System, symbols: &[u8], words: &mut [u64], bytes: &mut [u8])
    requires planned { IsPlanned system.now × IsUnsolved system.now }
    requires room { HasRoom system.now (length words.old) }
    requires symbols_len { (length symbols.now ≡ (checks_of system.now).n * system.now.block.now.shape.w) × (length bytes.old ≡ (checks_of system.now).m * system.now.block.now.shape.w) }
    ensures { Equations (checks_of system.now) system.now.block.now.shape.w system.now.plan.now symbols.now system.now.rows words.new bytes.new }
{
    remaining::sums(system.block, system.plan, symbols, bytes);
    express_all(system, words);
    reduce_behind(system.rows, system.block.shape.w, words, bytes);
}

// The pivots' symbols, where a reduced row has the pivot, and then once more those of the steps that depend on pivots.
fn put_in(
    block: &CheckRows,
    r: Rows,
    words: &[u64],
    bytes: &[u8],
    plan: &mut Plan,
    symbols: &mut [u8],
)
    requires { (states : List ℕ) × Solvable (checks block.now.shape) block.now.shape.w states plan.old symbols.old r words.now bytes.now }
    ensures { PutIn (checks block.now.shape) block.now.shape.w r words.now bytes.now plan.old symbols.old plan.new symbols.new }
{
    pivots::put(block, r, words, bytes, plan, symbols);
    let system = System {
        block,
        plan,
        rows: r,
    };
    system.restore_steps(symbols);
}

// Fills what depends on no free pivot, where the reduced rows have a solution.
fn fill(
    block: &CheckRows,
    r: Rows,
    plan: &mut Plan,
    symbols: &mut [u8],
    states: &mut [u8],
    words: &mut [u64],
    bytes: &[u8],
)
    requires solvable { Solvable (checks block.now.shape) block.now.shape.w states.old plan.old symbols.old r words.old bytes.now }
    requires consistent { Consistent (behind r.packed r.steps words.old) bytes.now r.rest r.packed block.now.shape.w }
    requires states_len { length states.old ≡ (checks block.now.shape).n }
    ensures { Outcome (checks block.now.shape) block.now.shape.w symbols.old states.old symbols.new states.new true }
{
    put_in(block, r, words, bytes, plan, symbols);
    if pivots::all_solved(r.pivots, plan) {
        missing::fill_missing(states);
        return;
    }
    let system = System {
        block,
        plan,
        rows: r,
    };
    system.steps(words);
    missing::fill_determined(&system, words, symbols, states);
}

// The block by the equations of its pivots; false where they have no solution.
fn by_pivots(
    block: &CheckRows,
    g: Progress,
    plan: &mut Plan,
    symbols: &mut [u8],
    states: &mut [u8],
    words: &mut [u64],
    bytes: &mut [u8],
) -> bool
    requires peeled { Peeled (checks block.now.shape) block.now.shape.w symbols.old states.old plan.old symbols.old g.early g.steps g.pivots }
    requires words_len { (length words.old ≡ (checks block.now.shape).m * ((checks block.now.shape).n / 64 + 1)) × (length bytes.old ≡ (checks block.now.shape).m * block.now.shape.w) }
    requires w_nonzero { (0 < block.now.shape.w) × (length states.old ≡ (checks block.now.shape).n) }
    ensures { Outcome (checks block.now.shape) block.now.shape.w symbols.old states.old symbols.new states.new result }
{
    let r = Rows::new(g.early, g.steps, g.pivots, block.shape.layout.m);
    let system = System {
        block: &*block,
        plan,
        rows: r,
    };
    reduce(&system, symbols, words, bytes);
    let consistent = consistent_behind(r, block.shape.w, words, bytes);
    if consistent {
        fill(block, r, plan, symbols, states, words, bytes);
        return true;
    }
    missing::clear_missing(block.shape.w, symbols, states);
    false
}

// The block where peeling has put nothing off; false where an unused check row does not add up to zero.
fn by_steps(
    block: &CheckRows,
    g: Progress,
    plan: &Plan,
    symbols: &mut [u8],
    states: &mut [u8],
) -> bool
    requires peeled { Peeled (checks block.now.shape) block.now.shape.w symbols.old states.old plan.now symbols.old g.early g.steps g.pivots × (g.pivots ≡ 0) }
    requires states_len { length states.old ≡ (checks block.now.shape).n }
    ensures { Outcome (checks block.now.shape) block.now.shape.w symbols.old states.old symbols.new states.new result }
{
    if remaining::hold(block, plan, symbols) {
        missing::fill_missing(states);
        return true;
    }
    missing::clear_missing(block.shape.w, symbols, states);
    false
}

// Fills the symbols of a block of this fill that its known symbols determine, with state 2, and clears the others that are missing; false where no codeword agrees
// with the known symbols.
pub fn solve(
    number: usize,
    w: usize,
    fill: usize,
    symbols: &mut [u8],
    states: &mut [u8],
    words: &mut [u64],
    bytes: &mut [u8],
) -> bool
    requires known { Known number × (0 < w) × (fill ≤ (code_of number).k) }
    requires symbols_len { (length symbols.old ≡ n_of (code_of number) * w) × (length states.old ≡ n_of (code_of number)) }
    requires words_len { (length words.old ≡ (code_of number).m * (n_of (code_of number) / 64 + 1)) × (length bytes.old ≡ (code_of number).m * w) }
    ensures { Decoded (sent_checks (code_of number) fill) w symbols.old states.old symbols.new states.new result }
{
    let mut table = ClassTable::new();
    let shape = positions::lay(number, w, fill, &mut table);
    let block = CheckRows {
        shape,
        table: &table,
    };
    let mut plan = Plan {
        kinds: [0; Code::MAX_N],
        pivots: [0; Code::MAX_N],
        steps: [Step {
            row: 0,
            position: 0,
        }; Code::MAX_M],
        used: [false; Code::MAX_M],
    };
    let g = peel::peel(&block, states, &mut plan, symbols);
    if g.pivots == 0 {
        return by_steps(&block, g, &plan, symbols, states);
    }
    by_pivots(&block, g, &mut plan, symbols, states, words, bytes)
}
