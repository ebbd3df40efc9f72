// Sums and copies on parts of lent byte buffers. The loops go by index, so that they are compiled to vector instructions.
#![tactic(auto)]

ghost use Rattle.std.specs.Prelude.{◌≡◌, List, ℕ, ◌<◌, ◌≤◌, ◌+◌, ◌%◌, length};
ghost use Rattle.buffers.specs.Parts.{added, put, Sum, Part, Apart};
ghost use Rattle.buffers.specs.AllZero.{AllZeroIs};

// The 16 bytes of dst from index `at` on, each with the byte of src added that stands as far from index `from`. An array of its own overlaps with
// nothing, and so short a loop is compiled to one vector instruction, without a test of whether dst and src overlap.
pub fn sum_16(dst: &[u8], at: usize, src: &[u8], from: usize) -> [u8; 16]
    requires { (at + 16 ≤ length dst.now) × (from + 16 ≤ length src.now) }
    ensures { Sum dst.now at src.now from 16 result }
{
    let mut t = [0u8; 16];
    for i in 0..16 {
        t[i] = dst[at + i] ^ src[from + i];
    }
    t
}

// Puts the bytes of t over those of dst from index `at` on.
pub fn put_16(dst: &mut [u8], at: usize, t: &[u8; 16])
    requires { (at + 16 ≤ length dst.old) × (length t.now ≡ 16) }
    ensures { dst.new ≡ put dst.old at t.now 0 16 }
{
    for i in 0..16 {
        dst[at + i] = t[i];
    }
}

// Adds the 16 bytes of a buffer from index `from` on to those from index `at` on.
fn add_within_16(buf: &mut [u8], at: usize, from: usize)
    requires { (at + 16 ≤ length buf.old) × (from + 16 ≤ length buf.old) }
    ensures { buf.new ≡ added buf.old at buf.old from 16 }
{
    let t = sum_16(buf, at, buf, from);
    put_16(buf, at, &t);
}

// The same with N bytes, a multiple of 16, apart from those that they are added to.
#[inline(always)]
fn add_chunk<const N: usize>(buf: &mut [u8], at: usize, from: usize)
    requires apart { Apart at from N }
    requires whole { (N % 16 ≡ 0) × (at + N ≤ length buf.old) × (from + N ≤ length buf.old) }
    ensures { buf.new ≡ added buf.old at buf.old from N }
{
    for k in 0..N / 16 {
        add_within_16(buf, at + 16 * k, from + 16 * k);
    }
}

// The 16 bytes of src from index `from` on.
pub fn part_16(src: &[u8], from: usize) -> [u8; 16]
    requires { from + 16 ≤ length src.now }
    ensures { Part src.now from 16 result }
{
    let mut t = [0u8; 16];
    for i in 0..16 {
        t[i] = src[from + i];
    }
    t
}

// Where `done` of the len bytes are added already, adds as many more as whole chunks of N hold; answers how many are added then.
#[inline(always)]
fn add_chunks<const N: usize>(
    buf: &mut [u8],
    at: usize,
    from: usize,
    done: usize,
    len: usize,
) -> usize
    requires apart { Apart at from len }
    requires whole { (0 < N) × (N % 16 ≡ 0) }
    requires done_le_len { (done ≤ len) × (at + len ≤ length buf.old) × (from + len ≤ length buf.old) }
    ensures { (result ≤ len) × ((d : List ℕ) → buf.old ≡ added d at d from done → buf.new ≡ added d at d from result) }
{
    for k in 0..(len - done) / N {
        let i = done + N * k;
        add_chunk::<N>(buf, at + i, from + i);
    }
    done + (len - done) / N * N
}

// Adds the rest, one by one.
fn add_bytes(buf: &mut [u8], at: usize, from: usize, done: usize, len: usize)
    requires apart { Apart at from len }
    requires done_le_len { (done ≤ len) × (at + len ≤ length buf.old) × (from + len ≤ length buf.old) }
    ensures { (d : List ℕ) → buf.old ≡ added d at d from done → buf.new ≡ added d at d from len }
{
    for i in done..len {
        buf[at + i] = buf[at + i] ^ buf[from + i];
    }
}

// Adds len bytes of a buffer, from index `from` on, to those of the same buffer from index `at` on, which are apart from them: a fact of three numbers
// that each call makes anew, and of no value.
pub fn add_within(buf: &mut [u8], at: usize, from: usize, len: usize)
    requires apart { Apart at from len }
    requires len_in_bounds { (at + len ≤ length buf.old) × (from + len ≤ length buf.old) }
    ensures { buf.new ≡ added buf.old at buf.old from len }
{
    let wide = add_chunks::<64>(buf, at, from, 0, len);
    let done = add_chunks::<16>(buf, at, from, wide, len);
    add_bytes(buf, at, from, done, len);
}

// Puts as many of the len bytes of src from index `from` on as whole chunks of 16 hold over those of dst from index `at` on; answers how many.
fn put_chunks(dst: &mut [u8], at: usize, src: &[u8], from: usize, len: usize) -> usize
    requires { (at + len ≤ length dst.old) × (from + len ≤ length src.now) }
    ensures { (result ≤ len) × (dst.new ≡ put dst.old at src.now from result) }
{
    for k in 0..len / 16 {
        let t = part_16(src, from + 16 * k);
        put_16(dst, at + 16 * k, &t);
    }
    len / 16 * 16
}

// The bytes from the first `done` on, one by one.
fn put_bytes(dst: &mut [u8], at: usize, src: &[u8], from: usize, done: usize, len: usize)
    requires { (done ≤ len) × (at + len ≤ length dst.old) × (from + len ≤ length src.now) }
    ensures { (d : List ℕ) → dst.old ≡ put d at src.now from done → dst.new ≡ put d at src.now from len }
{
    for i in done..len {
        dst[at + i] = src[from + i];
    }
}

// Puts len bytes of src, from index `from` on, over those of dst from index `at` on. No copy_from_slice: that is a call of memmove, and the archive
// needs memset alone (tests/header/symbols.sh).
pub fn put_from(dst: &mut [u8], at: usize, src: &[u8], from: usize, len: usize)
    requires { (at + len ≤ length dst.old) × (from + len ≤ length src.now) }
    ensures { dst.new ≡ put dst.old at src.now from len }
{
    let done = put_chunks(dst, at, src, from, len);
    put_bytes(dst, at, src, from, done, len);
}

// The len bytes from index `from` are all 0. All of them are read: a loop that may end early is not compiled to vector instructions.
pub fn all_zero(s: &[u8], from: usize, len: usize) -> bool
    requires { from + len ≤ length s.now }
    ensures { AllZeroIs s.now from len result }
{
    s[from..from + len].iter().fold(0, |all, x| all | *x) == 0
}
