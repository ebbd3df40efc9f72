// Pieces of a symbol that are held in locals: a byte, 16 bytes or 64. What is done with one is inlined, so that it stays in registers.

ghost use Rattle.std.specs.Prelude.{◌≡◌, ℕ, ◌+◌, ◌<◌, ◌≤◌, length, get_or};
ghost use Rattle.algebra.specs.Sums.{◌⊕◌};
ghost use Rattle.symbol_sums.specs.Gather.{Chunk16Is, Written, Or16, ZeroIs};
ghost use Rattle.std.proofs.Common.{rules};
ghost use Rattle.symbol_sums.specs.Chunks.{Chunk64Is, PlusBytes};

use buffers::{all_zero, put_16, sum_16};

pub(crate) trait Chunk {
    // How many bytes it has.
    ghost SIZE: { ℕ };

    // It is f c, .., f (c + SIZE - 1).
    ghost holds: { (ℕ → ℕ) → ℕ → Self → Type 0 };

    const SIZE: usize;

    fn zero() -> Self
        ensures { (c : ℕ) → holds (λ b. 0) c result };

    // With SIZE bytes of src added, from index `from` on.
    fn plus(self, src: &[u8], from: usize) -> Self
        requires held { (f : ℕ → ℕ) × ((c : ℕ) × holds f c self) }
        requires within { from + SIZE ≤ length src.now }
        ensures { (f g : ℕ → ℕ) (c : ℕ) → holds f c self → PlusBytes f g c SIZE src.now from → holds g c result };

    // Puts it over the bytes of dst from index `at` on.
    fn put(self, dst: &mut [u8], at: usize)
        requires held { (f : ℕ → ℕ) × ((c : ℕ) × holds f c self) }
        requires within { at + SIZE ≤ length dst.old }
        ensures { (f : ℕ → ℕ) (o c : ℕ) → at ≡ o + c → holds f c self → Written f o c SIZE dst.old dst.new };

    fn is_zero(self) -> bool
        requires { (f : ℕ → ℕ) × ((c : ℕ) × holds f c self) }
        ensures { (f : ℕ → ℕ) (c : ℕ) → holds f c self → ZeroIs f c (c + SIZE) result };

    ghost some_bytes: { 0 < SIZE };
}

impl Chunk for u8 {
    ghost SIZE = { 1 };

    ghost holds = { λ f c s. s ≡ f c };

    const SIZE: usize = 1;

    fn zero() -> u8 {
        0
    }

    #[inline(always)]
    fn plus(self, src: &[u8], from: usize) -> u8 {
        self ^ src[from]
    }

    #[inline(always)]
    fn put(self, dst: &mut [u8], at: usize) {
        dst[at] = self;
    }

    #[inline(always)]
    fn is_zero(self) -> bool {
        self == 0
    }

    ghost some_bytes = { Prim.search rules };
}

impl Chunk for [u8; 16] {
    ghost SIZE = { 16 };

    ghost holds = { Chunk16Is };

    const SIZE: usize = 16;

    fn zero() -> [u8; 16] {
        [0u8; 16]
    }

    #[inline(always)]
    fn plus(self, src: &[u8], from: usize) -> [u8; 16] {
        sum_16(&self, 0, src, from)
    }

    #[inline(always)]
    fn put(self, dst: &mut [u8], at: usize) {
        put_16(dst, at, &self);
    }

    #[inline(always)]
    fn is_zero(self) -> bool {
        all_zero(&self, 0, 16)
    }

    ghost some_bytes = { Prim.search rules };
}

// 64 bytes, in four arrays.
#[derive(Clone, Copy)]
pub(crate) struct Chunk64 {
    a: [u8; 16],
    b: [u8; 16],
    c: [u8; 16],
    d: [u8; 16],
}

impl Chunk for Chunk64 {
    ghost SIZE = { 64 };

    ghost holds = { Chunk64Is };

    const SIZE: usize = 64;

    fn zero() -> Chunk64 {
        Chunk64 {
            a: [0u8; 16],
            b: [0u8; 16],
            c: [0u8; 16],
            d: [0u8; 16],
        }
    }

    #[inline(always)]
    fn plus(self, src: &[u8], from: usize) -> Chunk64 {
        Chunk64 {
            a: sum_16(&self.a, 0, src, from),
            b: sum_16(&self.b, 0, src, from + 16),
            c: sum_16(&self.c, 0, src, from + 32),
            d: sum_16(&self.d, 0, src, from + 48),
        }
    }

    #[inline(always)]
    fn put(self, dst: &mut [u8], at: usize) {
        put_16(dst, at, &self.a);
        put_16(dst, at + 16, &self.b);
        put_16(dst, at + 32, &self.c);
        put_16(dst, at + 48, &self.d);
    }

    #[inline(always)]
    fn is_zero(self) -> bool {
        let x = or_16(&self.a, &self.b);
        let y = or_16(&self.c, &self.d);
        all_zero(&or_16(&x, &y), 0, 16)
    }

    ghost some_bytes = { Prim.search rules };
}

// The bitwise or of two arrays.
fn or_16<'a>(t: &'a [u8; 16], u: &'a [u8; 16]) -> [u8; 16]
    requires { (length t.now ≡ 16) × (length u.now ≡ 16) }
    ensures { Or16 t.now u.now result }
{
    let mut r = [0u8; 16];
    for i in 0..16 {
        r[i] = t[i] | u[i];
    }
    r
}
