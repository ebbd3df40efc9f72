// Which positions depend on free pivots.
ghost use Rattle.std.specs.Prelude.{◌+◌, ◌*◌, ◌<◌, ◌≤◌, length};
ghost use Rattle.peeling.specs.Plan.{kind_of};
ghost use Rattle.decoder.specs.Pivots.{NoBitsIs, Readable, DeterminedIs};
ghost use Rattle.ccsds.specs.inner.Layout.{max_n};
ghost use Rattle.pivot_equations.specs.OfSystem.{AreWithin};

use peeling::plan::{FIRST_SOLVED, LAST_PIVOT, LAST_STEP};
use pivot_equations::system::System;

// The row of len words at `at` has no pivot.
fn no_bits(words: &[u64], at: usize, len: usize) -> bool
    requires { at + len ≤ length words.now }
    ensures { NoBitsIs words.now at len result }
{
    words[at..at + len].iter().fold(0, |all, word| all | word) == 0
}

// Position p depends on no free pivot.
pub fn determined(system: &System, p: usize, words: &[u64]) -> bool
    requires words_len { AreWithin system.now words.now }
    requires p_lt_max_n { p < max_n }
    requires readable { Readable system.now.rows words.now system.now.plan.now p }
    ensures { DeterminedIs words.now system.now.rows.packed system.now.rows.early (kind_of system.now.plan.now p) result }
{
    let packed = system.rows.packed;
    let stride = packed + 1;
    let kind = system.plan.kinds[p] as usize;
    if kind <= system.rows.early {
        return true;
    }
    if kind <= LAST_STEP {
        return no_bits(words, (kind - 1) * stride, packed);
    }
    if kind <= LAST_PIVOT {
        return false;
    }
    let h = (kind - FIRST_SOLVED) * stride;
    let u = words[h + packed] as usize;
    elimination::bits::only(words, h, packed, u - 1)
}
