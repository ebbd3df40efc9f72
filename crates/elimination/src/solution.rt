// What is read off the reduced form: whether there is a solution.
ghost use Rattle.std.specs.Prelude.{length};
ghost use Rattle.elimination.specs.Fits.{Fits};
ghost use Rattle.elimination.specs.Reduced.{Reduced};
ghost use Rattle.elimination.specs.Consistency.{ConsistentIs};

use crate::Shape;

// There is a solution: no equation without unknowns fails. No System: it would lend the buffers to be changed.
pub fn consistent(rows: &[u64], rhs: &[u8], s: Shape) -> bool
    requires fits { Fits s (length rows.now) (length rhs.now) }
    requires reduced { Reduced rows.now s.rows s.words s.rows }
    ensures { ConsistentIs rows.now rhs.now s.rows s.words s.width result }
{
    for j in 0..s.rows {
        let pivot = rows[j * (s.words + 1) + s.words];
        if pivot == 0 && !buffers::all_zero(rhs, j * s.width, s.width) {
            return false;
        }
    }
    true
}
