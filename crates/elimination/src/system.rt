// The equations in lent buffers, a row added to others, and a column cleared by that.
ghost use Rattle.std.specs.Prelude.{length};
ghost use Rattle.elimination.specs.Fits.{Fits};

use crate::{Shape, bits, parts};

// Its rows and its right-hand side, which lie in lent buffers that have room for them.
#[derive(Drop)]
pub struct System<'a> {
    pub rows: &'a mut [u64],
    pub rhs: &'a mut [u8],
    pub shape: Shape,
    pub ghost fits: { Fits shape (length rows.now) (length rhs.now) },
}

impl<'a> System<'a> {
    ghost use Rattle.std.specs.Prelude.{◌≡◌, ◌≢◌, ◌+◌, ◌*◌, ◌/◌, ◌<◌};
    ghost use Rattle.buffers.specs.Parts.{added};
    ghost use Rattle.elimination.specs.Bits.{row_bit, LowestIs};
    ghost use Rattle.elimination.specs.Column.{add_row_where, has_pivot, FirstFrom};
    ghost use Rattle.elimination.specs.Kept.{SameBuffers};

    // Row j has unknown p.
    pub fn has_unknown(&self, j: usize, p: usize) -> bool
        requires { (j < self.now.shape.rows) × (p / 64 < self.now.shape.words) }
        ensures { result ≡ row_bit self.now.rows.now (j * (self.now.shape.words + 1)) p }
    {
        bits::bit_at(self.rows, j * (self.shape.words + 1), p)
    }

    // The lowest unknown of row j.
    pub fn lowest(&self, j: usize) -> Option<usize>
        requires { j < self.now.shape.rows }
        ensures { LowestIs (row_bit self.now.rows.now (j * (self.now.shape.words + 1))) (64 * self.now.shape.words) result }
    {
        let s = self.shape;
        bits::lowest(self.rows, j * (s.words + 1), s.words)
    }

    // Adds row r to another row j, on both sides. The pivot word takes no part.
    pub fn add_row(&mut self, r: usize, j: usize)
        requires r_lt_rows { (r < self.old.shape.rows) × (j < self.old.shape.rows) }
        requires r_nonzero { r ≢ j }
        ensures same_buffers { SameBuffers self.old self.new }
        ensures rows_after { let w = self.old.shape.words in self.new.rows.now ≡ added self.old.rows.now (j * (w + 1)) self.old.rows.now (r * (w + 1)) w }
        ensures rhs_after { let w = self.old.shape.width in self.new.rhs.now ≡ added self.old.rhs.now (j * w) self.old.rhs.now (r * w) w }
    {
        let s = self.shape;
        let stride = s.words + 1;
        parts::xor_words(self.rows, r * stride, j * stride, s.words);
        buffers::add_within(self.rhs, j * s.width, r * s.width, s.width);
    }

    // The first row from j on, other than r, that has unknown p.
    fn next_with_pivot(&self, r: usize, p: usize, j: usize) -> Option<usize>
        requires { p / 64 < self.now.shape.words }
        ensures { FirstFrom (has_pivot self.now.rows.now (self.now.shape.words + 1) r p) self.now.shape.rows j result }
    {
        // taken out first, so that the loop doesn't read them again for each row
        let rows: &[u64] = self.rows;
        let s = self.shape;
        for k in j..s.rows {
            if k != r && bits::bit_at(rows, k * (s.words + 1), p) {
                return Some(k);
            }
        }
        None
    }

    // Clears the column of unknown p: adds row r to each other row that has p. The search for the next such row is a loop of its own, which is
    // quicker than a test and a call in one loop.
    pub fn clear_column(&mut self, r: usize, p: usize)
        requires { (p / 64 < self.old.shape.words) × (r < self.old.shape.rows) }
        ensures same_buffers { SameBuffers self.old self.new }
        ensures rows_after { let s = self.old.shape in let h = has_pivot self.old.rows.now (s.words + 1) r p in self.new.rows.now ≡ add_row_where h self.old.rows.now r (s.words + 1) s.words s.rows }
        ensures rhs_after { let s = self.old.shape in let h = has_pivot self.old.rows.now (s.words + 1) r p in self.new.rhs.now ≡ add_row_where h self.old.rhs.now r s.width s.width s.rows }
    {
        let mut from = 0;
        while let Some(j) = self.next_with_pivot(r, p, from) {
            self.add_row(r, j);
            from = j + 1;
        }
    }
}
