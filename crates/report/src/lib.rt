// What the programs share: a pattern for buffers, how input is read, and how buffers are printed.
#![tactic(auto)]

ghost use Rattle.std.specs.Prelude.{◌≡◌, ◌<◌, ◌≤◌, length, IfOk};

use std::io::Read;
use std::{fmt, io};

// The generator x → (1,103,515,245 x + 12,345) mod 2,147,483,648 from x = seed, a byte of x for each byte of the buffer.
pub fn fill(p: &mut [u8], seed: u8) {
    let mut x = u64::from(seed);
    for b in p.iter_mut() {
        x = (x * 1103515245 + 12345) % 2147483648;
        *b = (x / 65536 % 256) as u8;
    }
}

// The checksum of s: from 0, each byte b takes d to (257 d + b) mod 4,294,967,291. As a fold it was tried: that the closure's sums fit did not prove.
fn checksum(s: &[u8]) -> u64 {
    let mut d = 0;
    for b in s {
        d = (d * 257 + u64::from(*b)) % 4294967291;
    }
    d
}

// Reads until the buffer is full or the input ends. Answers how many bytes stand at the buffer's start.
// A loop of its own: where the input ends first, Read::read_exact answers no count.
pub fn read_full(input: &mut impl Read, p: &mut [u8]) -> io::Result<usize>
    ensures { IfOk result (λ n. n ≤ length p.new) }
{
    let mut done = 0;
    while done < p.len() {
        let n = input.read(&mut p[done..])?;
        if n == 0 {
            return Ok(done);
        }
        done += n;
    }
    Ok(done)
}

// A buffer as it is printed: at most `shown` bytes of its start as pairs of hexadecimal digits, each after a space, and the checksum of all.
#[derive(Clone, Copy)]
pub struct Digest<'a> {
    bytes: &'a [u8],
    shown: usize,
}

impl<'a> Digest<'a> {
    pub fn of(bytes: &'a [u8], shown: usize) -> Self
        ensures { (result.bytes.now ≡ bytes.now) × (result.shown ≡ shown) }
    {
        Digest { bytes, shown }
    }
}

impl<'a> fmt::Display for Digest<'a> {
    fn fmt<W: fmt::Write>(&self, f: &mut fmt::Formatter<W>) -> fmt::Result {
        for b in self.bytes.iter().take(self.shown) {
            write!(f, " {b:02x}")?;
        }
        write!(f, " checksum {}", checksum(self.bytes))
    }
}
