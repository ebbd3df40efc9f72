// What becomes of the missing positions.
ghost use Rattle.std.specs.Prelude.{◌≡◌, cond, false, ℕ, ◌+◌, ◌*◌, ◌<◌, ◌≤◌, eqb, length, replicate, set};
ghost use Rattle.peeling.specs.States.{is_known};
ghost use Rattle.buffers.specs.Parts.{put};
ghost use Rattle.decoder.specs.Pivots.{Readable};
ghost use Rattle.decoder.specs.MissingPositions.{Cleared, FilledMissing, FillRoom, FilledOne, FilledDetermined};

use crate::dependence;
use peeling::states::{DETERMINED, KNOWN, LEFT};
use pivot_equations::system::System;

// Where position i is not known, it gets zero bytes and state 0.
fn clear_at(w: usize, symbols: &mut [u8], states: &mut [u8], i: usize)
    requires { (i < length states.old) × (i * w + w ≤ length symbols.old) }
    ensures symbols_after { symbols.new ≡ cond (is_known states.old i) symbols.old (put symbols.old (i * w) (replicate w 0) 0 w) }
    ensures states_after { states.new ≡ cond (is_known states.old i) states.old (set states.old i 0) }
{
    if states[i] == KNOWN {
        return;
    }
    states[i] = LEFT;
    let at = i * w;
    symbols[at..at + w].fill(0);
}

// The same at every position. By index: over the parts of both slices at once, zipped, the proof was tried and didn't close.
pub fn clear_missing(w: usize, symbols: &mut [u8], states: &mut [u8])
    requires { length symbols.old ≡ length states.old * w }
    ensures { Cleared w symbols.old states.old symbols.new states.new (length states.old) }
{
    for i in 0..states.len() {
        clear_at(w, symbols, states, i);
    }
}

// 1 stays 1, and any other state becomes 2.
fn filled(state: u8) -> u8
    ensures { result ≡ cond (eqb state 1) 1 2 }
{
    if state == KNOWN {
        return KNOWN;
    }
    DETERMINED
}

// Each position that is not known gets state 2.
pub fn fill_missing(states: &mut [u8])
    ensures { FilledMissing states.old states.new }
{
    for state in states.iter_mut() {
        *state = filled(*state);
    }
}

// Where position p is not known, it gets state 2 if it depends on no free pivot, and else zero bytes and state 0.
fn fill_at(system: &System, p: usize, words: &[u64], symbols: &mut [u8], states: &mut [u8])
    requires fill_room { FillRoom system.now.rows (length words.now) (length states.old) }
    requires p_in_bounds { (p < length states.old) × (length symbols.old ≡ length states.old * system.now.block.now.shape.w) }
    requires readable { is_known states.old p ≡ false → Readable system.now.rows words.now system.now.plan.now p }
    ensures { FilledOne system.now.block.now.shape.w system.now.rows words.now system.now.plan.now symbols.old states.old symbols.new states.new p }
{
    if states[p] == KNOWN {
        return;
    }
    if dependence::determined(system, p, words) {
        states[p] = DETERMINED;
        return;
    }
    clear_at(system.block.shape.w, symbols, states, p);
}

// The same at every position, by index as in clear_missing.
pub fn fill_determined(system: &System, words: &[u64], symbols: &mut [u8], states: &mut [u8])
    requires fill_room { FillRoom system.now.rows (length words.now) (length states.old) }
    requires symbols_len { length symbols.old ≡ length states.old * system.now.block.now.shape.w }
    requires by_index { (p : ℕ) → p < length states.old → is_known states.old p ≡ false → Readable system.now.rows words.now system.now.plan.now p }
    ensures { FilledDetermined system.now.block.now.shape.w system.now.rows words.now system.now.plan.now symbols.old states.old symbols.new states.new }
{
    for i in 0..states.len() {
        fill_at(system, i, words, symbols, states);
    }
}
