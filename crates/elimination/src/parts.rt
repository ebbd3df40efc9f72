// Parts of lent buffers: exclusive or into another part.
ghost use Rattle.std.specs.Prelude.{◌≡◌, ◌+◌, ◌≤◌, length};
ghost use Rattle.buffers.specs.Parts.{added, Apart};

// Exclusive or of the len words from index `from` into the len words from index `to`, which are apart. No twin of buffers::add_within, which goes by
// chunks of bytes: this plain loop over words is compiled to vector instructions.
pub fn xor_words(rows: &mut [u64], from: usize, to: usize, len: usize)
    requires apart { Apart to from len }
    requires len_in_bounds { (from + len ≤ length rows.old) × (to + len ≤ length rows.old) }
    ensures { rows.new ≡ added rows.old to rows.old from len }
{
    for i in 0..len {
        rows[to + i] ^= rows[from + i];
    }
}
