// The unknowns of a row, 64 to a word.
ghost use Rattle.std.specs.Prelude.{◌≡◌, true, ◌+◌, ◌*◌, ◌/◌, ◌≤◌, ◌<◌, ◌==◌, not, length, position};
ghost use Rattle.elimination.specs.Bits.{row_bit, LowestIs, OnlyIs};
ghost use Rattle.elimination.specs.Fits.{max_words};

// The row at `base` has unknown p.
pub fn bit_at(rows: &[u64], base: usize, p: usize) -> bool
    requires { base + p / 64 < length rows.now }
    ensures { result ≡ row_bit rows.now base p }
{
    (rows[base + p / 64] >> (p % 64)) % 2 == 1
}

// The first word that is not 0.
fn first_word(row: &[u64]) -> Option<usize>
    ensures { result ≡ position (λ w. not (w == 0)) row.now }
{
    row.iter().position(|w| *w != 0)
}

// The lowest unknown of the row of `words` words at `base`.
pub fn lowest(rows: &[u64], base: usize, words: usize) -> Option<usize>
    requires { (words ≤ max_words) × (base + words ≤ length rows.now) }
    ensures { LowestIs (row_bit rows.now base) (64 * words) result }
{
    let row = &rows[base..base + words];
    let i = first_word(row)?;
    Some(i * 64 + row[i].trailing_zeros() as usize)
}

// The row of `words` words at `base` has no unknown but p. It has p.
pub fn only(rows: &[u64], base: usize, words: usize, p: usize) -> bool
    requires p_bound { (p / 64 < words) × (base + words ≤ length rows.now) }
    requires p_value { row_bit rows.now base p ≡ true }
    ensures { OnlyIs (row_bit rows.now base) (64 * words) p result }
{
    for i in 0..words {
        let w = rows[base + i];
        if i == p / 64 {
            if w != 1 << (p % 64) {
                return false;
            }
        } else if w != 0 {
            return false;
        }
    }
    true
}
