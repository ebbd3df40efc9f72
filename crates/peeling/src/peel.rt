// Peeling: a check row with just one open symbol settles it, as the sum of the row's other symbols; where no row is ready, the lowest open position is
// put off as a pivot, with zero for its symbol. The plan (specs/Plan.antt) says of each position what became of it.
ghost use Rattle.std.specs.Prelude.{◌≡◌, ℕ, ◌+◌, ◌*◌, ◌<◌, ◌≤◌, ◌≢◌, IfSome, None, length, if◌then◌else◌, nat_eq, slice_index};
ghost use Rattle.algebra.specs.Codeword.{byte_at};
ghost use Rattle.symbol_sums.specs.Gather.{gathered, Inside, Replaced};
ghost use Rattle.ccsds.specs.Tables.{code_of};
ghost use Rattle.ccsds.specs.inner.Layout.{max_n, max_m};
ghost use Rattle.encoder.specs.inner.Positions.{checks};
ghost use Rattle.peeling.specs.Values.{Peeled};
ghost use Rattle.peeling.specs.Peel.{NothingUsed, Opened, AllKnownIs, SingleIs, NextOpen, StepMade, PivotMade, Reached, Continued};

use crate::hints::Hints;
use crate::plan::{FIRST_PIVOT, OPEN, Plan, Step};
use crate::states::KNOWN;
use encoder::positions::CheckRows;
use symbol_sums::MAX_POSITIONS;

// How far peeling has come: steps made, pivots put off, steps made before the first pivot, the position up to which none is open, how many rows may
// still be tried, so that it ends, and the position that the last turn settled or put off.
#[derive(Clone, Copy)]
pub struct Progress {
    pub steps: usize,
    pub pivots: usize,
    pub early: usize,
    pub cursor: usize,
    pub fuel: usize,
    pub last: Option<usize>,
}

impl Progress {
    // Before the first turn.
    fn beginning() -> Self
        ensures { result ≡ (record { steps = 0; pivots = 0; early = 0; cursor = 0; fuel = 32768; last = None }) }
    {
        Progress {
            steps: 0,
            pivots: 0,
            early: 0,
            cursor: 0,
            fuel: 32768,
            last: None,
        }
    }

    // How many steps were made before the first pivot, once there is one step more.
    fn early_steps(self) -> usize
        requires { self.steps < max_m }
        ensures { result ≡ (if nat_eq self.pivots 0 then self.steps + 1 else self.early) }
    {
        if self.pivots == 0 {
            self.steps + 1
        } else {
            self.early
        }
    }
}

// What a position with this state is at first.
fn kind_of(state: u8) -> u16
    ensures { result ≡ (if nat_eq state 1 then 0 else 65535) }
{
    if state == KNOWN { 0 } else { OPEN }
}

// Every missing position is open.
pub fn open_missing(states: &[u8], plan: &mut Plan)
    requires { (length states.now ≤ max_n) × NothingUsed plan.old }
    ensures { Opened (length states.now) states.now plan.new }
{
    for (x, &state) in states.iter().enumerate() {
        plan.kinds[x] = kind_of(state);
    }
}

// The index of the only open position, if there is just one. Without a branch: what is open can't be foreseen.
fn single(plan: &Plan, xs: &[u16]) -> Option<usize>
    requires { (i : ℕ) → i < length xs.now → slice_index xs.now i < max_n }
    ensures { SingleIs plan.now xs.now result }
{
    let mut at = 0;
    let mut found: usize = 0;
    for (i, &x) in xs.iter().enumerate() {
        if plan.kinds[usize::from(x)] == OPEN {
            at = i;
            found += 1;
        }
    }
    if found == 1 { Some(at) } else { None }
}

// Step t: check row r settles position p.
fn settle(w: usize, t: usize, r: usize, p: usize, xs: &[u16], plan: &mut Plan, symbols: &mut [u8])
    requires t_lt_max_m { (t < max_m) × ((r < max_m) × (p < max_n)) }
    requires w_in_bounds { (p * w + w ≤ length symbols.old) × Inside xs.now w (length symbols.old) }
    requires by_index { (i : ℕ) → i < length xs.now → slice_index xs.now i ≢ p }
    ensures made { StepMade plan.old plan.new t r p }
    ensures replaced { Replaced (λ b. gathered (byte_at w symbols.old b) xs.now (length xs.now)) w p symbols.old symbols.new }
{
    symbol_sums::restore(w, p, xs, symbols);
    plan.steps[t] = Step {
        row: r as u16,
        position: p as u16,
    };
    plan.used[r] = true;
    plan.kinds[p] = (t + 1) as u16;
}

// Check row r settles a position, if it has just one open one and no step used it. Plan and symbols are lent to each step: of a struct that held
// both, each method would owe a clause that it still holds the same two.
fn try_row(rows: &CheckRows, r: usize, g: Progress, plan: &mut Plan, symbols: &mut [u8]) -> Progress
    requires r_bound { (r < (code_of rows.now.shape.number).m) × (0 < g.fuel) }
    requires reached { Reached (checks rows.now.shape) rows.now.shape.w plan.old symbols.old g }
    ensures { Continued (checks rows.now.shape) rows.now.shape.w plan.old symbols.old g plan.new symbols.new result }
{
    let mut xs = [0u16; MAX_POSITIONS];
    let n = rows.of_row(r, &mut xs);
    let late = Progress {
        fuel: g.fuel - 1,
        last: None,
        ..g
    };
    let Some(i) = single(plan, &xs[..n]) else {
        return late;
    };
    if plan.used[r] {
        return late;
    }
    let p = usize::from(xs[i]);
    xs[i] = xs[n - 1];
    settle(rows.shape.w, g.steps, r, p, &xs[..n - 1], plan, symbols);
    Progress {
        steps: g.steps + 1,
        early: g.early_steps(),
        last: Some(p),
        ..late
    }
}

// Position x becomes pivot s, with symbol zero.
fn defer(w: usize, s: usize, x: usize, plan: &mut Plan, symbols: &mut [u8])
    requires s_lt_max_n { (s < max_n) × (x < max_n) }
    requires w_in_bounds { x * w + w ≤ length symbols.old }
    ensures made { PivotMade plan.old plan.new s x }
    ensures replaced { Replaced (λ b. 0) w x symbols.old symbols.new }
{
    let at = x * w;
    symbols[at..at + w].fill(0);
    plan.pivots[s] = x as u16;
    plan.kinds[x] = (FIRST_PIVOT + s) as u16;
}

// The first open position from `from` on.
fn next_open(plan: &Plan, from: usize, n: usize) -> Option<usize>
    requires { (from ≤ n) × (n ≤ max_n) }
    ensures { NextOpen plan.now from n result }
{
    for x in from..n {
        if plan.kinds[x] == OPEN {
            return Some(x);
        }
    }
    None
}

// The next open position becomes a pivot.
fn put_off(rows: &CheckRows, g: Progress, plan: &mut Plan, symbols: &mut [u8]) -> Progress
    requires cursor_bound { g.cursor < (checks rows.now.shape).n }
    requires reached { Reached (checks rows.now.shape) rows.now.shape.w plan.old symbols.old g }
    ensures { Continued (checks rows.now.shape) rows.now.shape.w plan.old symbols.old g plan.new symbols.new result }
{
    let n = rows.shape.layout.k + rows.shape.layout.m;
    let Some(x) = next_open(plan, g.cursor, n) else {
        return Progress {
            cursor: n,
            last: None,
            ..g
        };
    };
    defer(rows.shape.w, g.pivots, x, plan, symbols);
    Progress {
        pivots: g.pivots + 1,
        cursor: x + 1,
        last: Some(x),
        ..g
    }
}

// The next row of m to try, if any may be tried any more.
fn next_row(fuel: usize, m: usize, hints: &mut Hints) -> Option<usize>
    ensures { IfSome result (λ r. (r < m) × (0 < fuel)) }
{
    if fuel == 0 {
        return None;
    }
    hints.next().filter(|&r| r < m)
}

// One step by check row r, or nothing where it turned out not to be ready; where there is no row, one position put off.
fn advance(
    rows: &CheckRows,
    r: Option<usize>,
    g: Progress,
    plan: &mut Plan,
    symbols: &mut [u8],
) -> Progress
    requires row { IfSome r (λ j. (j < rows.now.shape.layout.m) × (0 < g.fuel)) }
    requires cursor_bound { g.cursor < (checks rows.now.shape).n }
    requires reached { Reached (checks rows.now.shape) rows.now.shape.w plan.old symbols.old g }
    ensures { Continued (checks rows.now.shape) rows.now.shape.w plan.old symbols.old g plan.new symbols.new result }
{
    match r {
        Some(j) => try_row(rows, j, g, plan, symbols),
        None => put_off(rows, g, plan, symbols),
    }
}

// The same by the next row that is ready.
fn turn(
    rows: &CheckRows,
    g: Progress,
    hints: &mut Hints,
    plan: &mut Plan,
    symbols: &mut [u8],
) -> Progress
    requires cursor_bound { g.cursor < (checks rows.now.shape).n }
    requires reached { Reached (checks rows.now.shape) rows.now.shape.w plan.old symbols.old g }
    ensures { Continued (checks rows.now.shape) rows.now.shape.w plan.old symbols.old g plan.new symbols.new result }
{
    let r = next_row(g.fuel, rows.shape.layout.m, hints);
    let h = advance(rows, r, g, plan, symbols);
    if let Some(x) = h.last {
        hints.close(rows, x);
    }
    h
}

// No position is missing. Counted in 16 bits, so that eight states are tested at a time.
fn none_missing(states: &[u8]) -> bool
    requires { length states.now ≤ max_n }
    ensures { AllKnownIs states.now result }
{
    let mut known: u16 = 0;
    for &state in states {
        if state == KNOWN {
            known += 1;
        }
    }
    known as usize == states.len()
}

// From where the missing positions are open and nothing is used: settles every one of them by a check row, or puts it off.
fn peel_open(rows: &CheckRows, states: &[u8], plan: &mut Plan, symbols: &mut [u8]) -> Progress
    requires opened { Opened (length states.now) states.now plan.old }
    requires states_len { (length states.now ≡ (checks rows.now.shape).n) × (length symbols.old ≡ (checks rows.now.shape).n * rows.now.shape.w) }
    ensures { Peeled (checks rows.now.shape) rows.now.shape.w symbols.old states.now plan.new symbols.new result.early result.steps result.pivots }
{
    let mut hints = Hints::new();
    hints.open(rows, states);
    let mut g = Progress::beginning();
    // no count: a turn moves the cursor or leaves it
    while g.cursor < states.len() {
        g = turn(rows, g, &mut hints, plan, symbols);
    }
    g
}

// Settles every missing position by a check row, or puts it off.
pub fn peel(rows: &CheckRows, states: &[u8], plan: &mut Plan, symbols: &mut [u8]) -> Progress
    requires unused { NothingUsed plan.old }
    requires states_len { (length states.now ≡ (checks rows.now.shape).n) × (length symbols.old ≡ (checks rows.now.shape).n * rows.now.shape.w) }
    ensures { Peeled (checks rows.now.shape) rows.now.shape.w symbols.old states.now plan.new symbols.new result.early result.steps result.pivots }
{
    open_missing(states, plan);
    if none_missing(states) {
        return Progress::beginning();
    }
    peel_open(rows, states, plan, symbols)
}
