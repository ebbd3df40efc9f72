// Sums of symbols that stand anywhere in a buffer, in chunks that are held in locals.
#![tactic(auto)]

ghost use Rattle.std.specs.Prelude.{◌≡◌, ◌≢◌, ℕ, ◌+◌, ◌-◌, ◌*◌, ◌/◌, ◌%◌, ◌<◌, ◌≤◌, List, length, get_or, IfSome, None};
ghost use Rattle.algebra.specs.Sums.{◌⊕◌};
ghost use Rattle.algebra.specs.Codeword.{byte_at};
ghost use Rattle.symbol_sums.specs.Gather.{gathered, Inside, Replaced, summed, byte_before, SumWritten, CancelIs, ZeroIs};

mod chunk;

use chunk::{Chunk, Chunk64};

// The most positions of a check row: the length of the arrays in which callers keep them.
pub const MAX_POSITIONS: usize = 64;

// Where byte c of symbol x stands.
fn offset(x: u16, w: usize, c: usize) -> usize
    requires { x * w + c < 18446744073709551616 }
    ensures { result ≡ x * w + c }
{
    x as usize * w + c
}

// Inside, which most functions here ask, speaks of two lent slices at once: of xs and of src.

// start plus the bytes from c on of the symbols xs of src. Each position is read once for all of them; it has 16 bits, so that those of a check row
// are made 8 at a time. Inlined into each caller: called for each chunk of 64, the loop takes twice as long.
#[inline(always)]
fn gather<C: Chunk>(start: C, w: usize, c: usize, xs: &[u16], src: &[u8]) -> C
    requires held { (f : ℕ → ℕ) × C.holds f c start }
    requires c_bound { c + C.SIZE ≤ w }
    requires inside { Inside xs.now w (length src.now) }
    ensures { (f : ℕ → ℕ) → C.holds f c start → C.holds (summed f w src.now xs.now (length xs.now)) c result }
{
    let mut t = start;
    for &x in xs {
        t = t.plus(src, offset(x, w, c));
    }
    t
}

// The bytes from c on of symbol prev; zeros where there is none.
#[inline(always)]
fn before<C: Chunk>(dst: &[u8], w: usize, prev: Option<usize>, c: usize) -> C
    requires { (c + C.SIZE ≤ w) × IfSome prev (λ i. i * w + w ≤ length dst.now) }
    ensures { C.holds (byte_before w dst.now prev) c result }
{
    match prev {
        None => C::zero(),
        Some(i) => C::zero().plus(dst, i * w + c),
    }
}

// Writes a chunk of put_sum's symbol j, from byte c on.
#[inline(always)]
fn put_sum_part<C: Chunk>(
    w: usize,
    j: usize,
    prev: Option<usize>,
    c: usize,
    xs: &[u16],
    src: &[u8],
    dst: &mut [u8],
)
    requires prev_lt_j { IfSome prev (λ i. i < j) × (c + C.SIZE ≤ w) × (j * w + w ≤ length dst.old) }
    requires inside { Inside xs.now w (length src.now) }
    ensures { SumWritten w j prev src.now xs.now (length xs.now) c C.SIZE dst.old dst.new }
{
    let start = before::<C>(dst, w, prev, c);
    let s = gather(start, w, c, xs, src);
    s.put(dst, j * w + c);
}

// Writes as many whole chunks as there are from byte `from` on; answers where they end.
fn put_sum_parts<C: Chunk>(
    w: usize,
    j: usize,
    prev: Option<usize>,
    from: usize,
    xs: &[u16],
    src: &[u8],
    dst: &mut [u8],
) -> usize
    requires prev_lt_j { IfSome prev (λ i. i < j) × (from ≤ w) × (j * w + w ≤ length dst.old) }
    requires inside { Inside xs.now w (length src.now) }
    ensures end { (result ≤ w) × (w - result < C.SIZE) }
    ensures written { (q : List ℕ) → SumWritten w j prev src.now xs.now (length xs.now) 0 from q dst.old → SumWritten w j prev src.now xs.now (length xs.now) 0 result q dst.new }
{
    let mut c = from;
    // tried as a for over a count: it is peeled, and encode at W 16 is 10 % slower
    while w - c >= C::SIZE {
        put_sum_part::<C>(w, j, prev, c, xs, src, dst);
        c += C::SIZE;
    }
    c
}

// Symbol j of dst becomes symbol prev of dst, where there is one, plus the symbols xs of src. Where the width is no multiple of 16, some bytes are
// written twice.
pub fn put_sum(w: usize, j: usize, prev: Option<usize>, xs: &[u16], src: &[u8], dst: &mut [u8])
    requires prev_lt_j { IfSome prev (λ i. i < j) × (j * w + w ≤ length dst.old) }
    requires inside { Inside xs.now w (length src.now) }
    ensures { Replaced (λ b. byte_before w dst.old prev b ⊕ gathered (byte_at w src.now b) xs.now (length xs.now)) w j dst.old dst.new }
{
    if w < 16 {
        put_sum_parts::<u8>(w, j, prev, 0, xs, src, dst);
        return;
    }
    let wide = put_sum_parts::<Chunk64>(w, j, prev, 0, xs, src, dst);
    let done = put_sum_parts::<[u8; 16]>(w, j, prev, wide, xs, src, dst);
    if done < w {
        put_sum_part::<[u8; 16]>(w, j, prev, w - 16, xs, src, dst);
    }
}

// Writes a chunk of restore's symbol p, from byte c on.
#[inline(always)]
fn restore_part<C: Chunk>(w: usize, p: usize, c: usize, xs: &[u16], buf: &mut [u8])
    requires c_bound { (c + C.SIZE ≤ w) × (p * w + w ≤ length buf.old) }
    requires inside { Inside xs.now w (length buf.old) }
    ensures { SumWritten w p None buf.old xs.now (length xs.now) c C.SIZE buf.old buf.new }
{
    let s = gather(C::zero(), w, c, xs, buf);
    s.put(buf, p * w + c);
}

// Writes as many whole chunks as there are from byte `from` on; answers where they end.
fn restore_parts<C: Chunk>(w: usize, p: usize, from: usize, xs: &[u16], buf: &mut [u8]) -> usize
    requires from_bound { (from ≤ w) × (p * w + w ≤ length buf.old) }
    requires inside { Inside xs.now w (length buf.old) }
    requires by_index { (i : ℕ) → i < length xs.now → get_or xs.now i 0 ≢ p }
    ensures end { (result ≤ w) × (w - result < C.SIZE) }
    ensures written { (q : List ℕ) → SumWritten w p None q xs.now (length xs.now) 0 from q buf.old → SumWritten w p None q xs.now (length xs.now) 0 result q buf.new }
{
    let mut c = from;
    // as in put_sum_parts: as a for over a count restore is 12 to 19 % slower at W 16 to 100
    while w - c >= C::SIZE {
        restore_part::<C>(w, p, c, xs, buf);
        c += C::SIZE;
    }
    c
}

// Symbol p of a buffer becomes the sum of the symbols xs of it, of which it is none.
pub fn restore(w: usize, p: usize, xs: &[u16], buf: &mut [u8])
    requires w_in_bounds { p * w + w ≤ length buf.old }
    requires inside { Inside xs.now w (length buf.old) }
    requires by_index { (i : ℕ) → i < length xs.now → get_or xs.now i 0 ≢ p }
    ensures { Replaced (λ b. gathered (byte_at w buf.old b) xs.now (length xs.now)) w p buf.old buf.new }
{
    if w < 16 {
        restore_parts::<u8>(w, p, 0, xs, buf);
        return;
    }
    let wide = restore_parts::<Chunk64>(w, p, 0, xs, buf);
    let done = restore_parts::<[u8; 16]>(w, p, wide, xs, buf);
    if done < w {
        restore_part::<[u8; 16]>(w, p, w - 16, xs, buf);
    }
}

// A chunk of the sum of the symbols xs of src, from byte c on, is zero.
#[inline(always)]
fn cancels_part<C: Chunk>(w: usize, c: usize, xs: &[u16], src: &[u8]) -> bool
    requires c_bound { c + C.SIZE ≤ w }
    requires inside { Inside xs.now w (length src.now) }
    ensures { ZeroIs (summed (λ b. 0) w src.now xs.now (length xs.now)) c (c + C.SIZE) result }
{
    gather(C::zero(), w, c, xs, src).is_zero()
}

// So are as many whole chunks as there are from byte `from` on.
fn cancels_parts<C: Chunk>(w: usize, from: usize, xs: &[u16], src: &[u8]) -> bool
    requires from_le_w { from ≤ w }
    requires inside { Inside xs.now w (length src.now) }
    ensures { ZeroIs (summed (λ b. 0) w src.now xs.now (length xs.now)) from (from + (w - from) / C.SIZE * C.SIZE) result }
{
    for i in 0..(w - from) / C::SIZE {
        if !cancels_part::<C>(w, from + i * C::SIZE, xs, src) {
            return false;
        }
    }
    true
}

// The symbols xs of src add up to zero. Where the width is no multiple of 16, some bytes are added twice.
pub fn cancels(w: usize, xs: &[u16], src: &[u8]) -> bool
    requires { Inside xs.now w (length src.now) }
    ensures { CancelIs w src.now xs.now (length xs.now) result }
{
    if w < 16 {
        return cancels_parts::<u8>(w, 0, xs, src);
    }
    let wide = w - w % 64;
    if !cancels_parts::<Chunk64>(w, 0, xs, src) {
        return false;
    }
    if !cancels_parts::<[u8; 16]>(w, wide, xs, src) {
        return false;
    }
    w % 16 == 0 || cancels_part::<[u8; 16]>(w, w - 16, xs, src)
}
