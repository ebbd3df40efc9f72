// Copies bytes into an output, without a local array. Internal: the unit writer's, and packing's. What both call is compiled into each: a call for
// each unit or row would make either slower.
// A function for each size: a const parameter would need a local array, and rust/tests/write_without_array.rs follows no call of a trait's method
// and none of core's copy_from_slice.
//
// Bytes that are read before the first of them is put become one load and one store, without a test of whether the two buffers overlap. No copy has
// a tail: its last part reaches back over bytes that stand already.
ghost use Rattle.std.specs.Prelude.{◌≡◌, ◌+◌, ◌<◌, ◌≤◌, length, take, drop};
ghost use Rattle.wire.specs.inner.Appended.{Appended, four_of};

// Four bytes, one after the other.
#[derive(Clone, Copy)]
struct Four {
    a: u8,
    b: u8,
    c: u8,
    d: u8,
}

// Those of s from index `from` on.
fn read_four(s: &[u8], from: usize) -> Four
    requires { from + 4 ≤ length s.now }
    ensures { four_of result ≡ take 4 (drop from s.now) }
{
    Four {
        a: s[from],
        b: s[from + 1],
        c: s[from + 2],
        d: s[from + 3],
    }
}

fn put_four(out: &mut [u8], at: usize, x: Four) -> usize
    requires { at + 4 ≤ length out.old }
    ensures { Appended out.old out.new at result (four_of x) }
{
    out[at] = x.a;
    out[at + 1] = x.b;
    out[at + 2] = x.c;
    out[at + 3] = x.d;
    at + 4
}

// Puts one byte of s, that of index `from`.
pub fn copy_1(out: &mut [u8], at: usize, s: &[u8], from: usize) -> usize
    requires { (at + 1 ≤ length out.old) × (from + 1 ≤ length s.now) }
    ensures { Appended out.old out.new at result (take 1 (drop from s.now)) }
{
    out[at] = s[from];
    at + 1
}

// The same with 4 bytes from index `from` on.
pub fn copy_4(out: &mut [u8], at: usize, s: &[u8], from: usize) -> usize
    requires { (at + 4 ≤ length out.old) × (from + 4 ≤ length s.now) }
    ensures { Appended out.old out.new at result (take 4 (drop from s.now)) }
{
    let x = read_four(s, from);
    put_four(out, at, x)
}

// With 8.
pub fn copy_8(out: &mut [u8], at: usize, s: &[u8], from: usize) -> usize
    requires { (at + 8 ≤ length out.old) × (from + 8 ≤ length s.now) }
    ensures { Appended out.old out.new at result (take 8 (drop from s.now)) }
{
    let x = read_four(s, from);
    let y = read_four(s, from + 4);
    let next = put_four(out, at, x);
    put_four(out, next, y)
}

// With 16.
pub fn copy_16(out: &mut [u8], at: usize, s: &[u8], from: usize) -> usize
    requires { (at + 16 ≤ length out.old) × (from + 16 ≤ length s.now) }
    ensures { Appended out.old out.new at result (take 16 (drop from s.now)) }
{
    let x = read_four(s, from);
    let y = read_four(s, from + 4);
    let z = read_four(s, from + 8);
    let t = read_four(s, from + 12);
    let b = put_four(out, at, x);
    let c = put_four(out, b, y);
    let d = put_four(out, c, z);
    put_four(out, d, t)
}

// With 64, as four times 16.
#[inline(always)]
fn copy_64(out: &mut [u8], at: usize, s: &[u8], from: usize) -> usize
    requires { (at + 64 ≤ length out.old) × (from + 64 ≤ length s.now) }
    ensures { Appended out.old out.new at result (take 64 (drop from s.now)) }
{
    let b = copy_16(out, at, s, from);
    let c = copy_16(out, b, s, from + 16);
    let d = copy_16(out, c, s, from + 32);
    copy_16(out, d, s, from + 48)
}

// All of s, from 1 byte to 32: the first part and the last, which may overlap.
#[inline(always)]
pub fn copy_few(out: &mut [u8], at: usize, s: &[u8]) -> usize
    requires { (0 < length s.now) × (length s.now ≤ 32) × (at + length s.now ≤ length out.old) }
    ensures { Appended out.old out.new at result s.now }
{
    let n = s.len();
    if n >= 16 {
        copy_16(out, at, s, 0);
        return copy_16(out, at + (n - 16), s, n - 16);
    }
    if n >= 8 {
        copy_8(out, at, s, 0);
        return copy_8(out, at + (n - 8), s, n - 8);
    }
    if n >= 4 {
        copy_4(out, at, s, 0);
        return copy_4(out, at + (n - 4), s, n - 4);
    }
    copy_1(out, at, s, 0);
    copy_1(out, at + n / 2, s, n / 2);
    copy_1(out, at + (n - 1), s, n - 1)
}

// Where copy_many and copy_long, of n bytes to position `at`, go on after their first 16. From 64 bytes on that is where the output's index is a multiple of 16: in an
// output that begins on a 16-byte border only the first store and one at the end can then cross a cache line.
pub fn second_part(at: usize, n: usize) -> usize
    ensures { result ≤ 16 }
{
    if n < 64 {
        return 16;
    }
    16 - at % 16
}

// All of s, from 33 bytes to 64.
#[inline(always)]
fn copy_some(out: &mut [u8], at: usize, s: &[u8]) -> usize
    requires { (32 < length s.now) × (length s.now ≤ 64) × (at + length s.now ≤ length out.old) }
    ensures { Appended out.old out.new at result s.now }
{
    let n = s.len();
    let last = n - 16;
    copy_16(out, at, s, 0);
    copy_16(out, at + 16, s, 16);
    if n <= 48 {
        return copy_16(out, at + last, s, last);
    }
    copy_16(out, at + 32, s, 32);
    copy_16(out, at + last, s, last)
}

// All of s, more than 64 bytes. In turns of 64: a loop of 16 is so short that it takes up to 1.5 times as long where a linker lays it across a border of
// 32 bytes.
#[inline(always)]
fn copy_long(out: &mut [u8], at: usize, s: &[u8]) -> usize
    requires { (64 < length s.now) × (at + length s.now ≤ length out.old) }
    ensures { Appended out.old out.new at result s.now }
{
    let n = s.len();
    let last = n - 64;
    copy_16(out, at, s, 0);
    let start = second_part(at, n);
    // a turn less where it would be the last 64 bytes
    for k in 0..(n - start - 1) / 64 {
        let i = start + 64 * k;
        copy_64(out, at + i, s, i);
    }
    copy_64(out, at + last, s, last)
}

// All of s, 16 bytes or more: packing's. Not in turns of 64 as copy_long: so rows of many widths took up to 1.25 times as long.
#[inline(always)]
pub fn copy_many(out: &mut [u8], at: usize, s: &[u8]) -> usize
    requires { (16 ≤ length s.now) × (at + length s.now ≤ length out.old) }
    ensures { Appended out.old out.new at result s.now }
{
    let n = s.len();
    let end = n - 16;
    copy_16(out, at, s, 0);
    for i in (second_part(at, n)..end).step_by(16) {
        copy_16(out, at + i, s, i);
    }
    copy_16(out, at + end, s, end)
}

// All of s, more than 32 bytes: the unit writer's.
#[inline(always)]
fn copy_more(out: &mut [u8], at: usize, s: &[u8]) -> usize
    requires { (32 < length s.now) × (at + length s.now ≤ length out.old) }
    ensures { Appended out.old out.new at result s.now }
{
    let n = s.len();
    if n <= 64 {
        return copy_some(out, at, s);
    }
    if n <= 128 {
        copy_64(out, at, s, 0);
        return copy_64(out, at + (n - 64), s, n - 64);
    }
    copy_long(out, at, s)
}

// Puts all of s, which has a byte at least.
pub fn symbol(out: &mut [u8], at: usize, s: &[u8]) -> usize
    requires { (0 < length s.now) × (at + length s.now ≤ length out.old) }
    ensures { Appended out.old out.new at result s.now }
{
    if s.len() <= 32 {
        return copy_few(out, at, s);
    }
    copy_more(out, at, s)
}
