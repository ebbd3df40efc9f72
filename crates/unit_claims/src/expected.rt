// A quick reader for the units that a receiver expects: those whose bytes before the symbol are as write makes them for a code, a W, a protocol ID
// and an LSC, whatever their LWC. Internal: block's take.
ghost use Rattle.std.specs.Prelude.{◌≡◌, true, ◌++◌, ◌+◌, ◌*◌, ◌<◌, ◌≤◌, length, drop};
ghost use Rattle.wire.specs.Bytes.{pair_at};
ghost use Rattle.unit_reader.specs.Reader.{read_unit};
ghost use Rattle.ccsds.specs.Units.{header_of, extension_of};
ghost use Rattle.ccsds.specs.inner.Compact.{Compact};
ghost use Rattle.unit_claims.specs.inner.Expected.{Starts, Agrees};

use ccsds::tables::Layout;
use ccsds::unit_size::Coding;
use unit_reader::{Parameters, UnitParts};
use wire::big_endian;

// s begins with a header of this protocol ID, one extension and this LSC.
#[tactic(auto, using(crate::proofs::ExpectedUnit::header_stands))]
fn is_header(s: &[u8], protocol: usize, lsc: usize) -> bool
    requires { (15 ≤ length s.now) × (protocol ≤ 7) }
    ensures { result ≡ true → s.now ≡ header_of protocol lsc (pair_at s.now 2) ++ drop 6 s.now }
{
    big_endian::pair(s[0], s[1]) == (16 + protocol * 2) * 256 + 1
        && big_endian::pair(s[4], s[5]) == lsc
}

// Four bytes as one number. u32::from_be_bytes would need a cast for each byte that is computed.
fn joined(a: usize, b: usize, c: usize, d: usize) -> usize
    requires { (a < 256) × (b < 256) × (c < 256) × (d < 256) }
    ensures { result ≡ (a * 256 + b) * 65536 + (c * 256 + d) }
{
    (a * 256 + b) * 65536 + (c * 256 + d)
}

// Those of s from index `at` on.
fn joined_at(s: &[u8], at: usize) -> usize
    requires { at + 4 ≤ length s.now }
    ensures { result ≡ pair_at s.now at * 65536 + pair_at s.now (at + 2) }
{
    big_endian::pair(s[at], s[at + 1]) * 65536 + big_endian::pair(s[at + 2], s[at + 3])
}

// Where the symbol starts after the extension of these parameters, if they are there. Its bytes are compared four at a time.
fn symbol_after(s: &[u8], c: Coding) -> Option<usize>
    requires { 15 ≤ length s.now }
    ensures { Starts s.now (extension_of c.w c.k c.n) result }
{
    let first = joined_at(s, 6);
    let second = joined_at(s, 10);
    if c.w < 128 {
        let stands = first == joined(1, 6, c.w, 128 + c.k / 128)
            && second == joined(c.k % 128, 128 + c.n / 128, c.n % 128, 0);
        return stands.then_some(14);
    }
    let stands = first == joined(1, 7, 128 + c.w / 128, c.w % 128)
        && second == joined(128 + c.k / 128, c.k % 128, 128 + c.n / 128, c.n % 128)
        && s[14] == 0;
    stands.then_some(15)
}

// Reads a unit that is as expected. Its caller has refused a code, a W or a protocol ID that no unit has.
#[tactic(auto, using(crate::proofs::ExpectedUnit::expected_reads))]
pub fn read(l: Layout, w: usize, protocol: usize, lsc: usize, s: &[u8]) -> Option<UnitParts>
    requires { Compact w l.k (l.k + l.m) × (protocol ≤ 7) }
    ensures { Agrees result (read_unit s.now) }
{
    if s.len() < 15 || !is_header(s, protocol, lsc) {
        return None;
    }
    let k = l.k;
    let n = k + l.m;
    let symbol = symbol_after(s, Coding { w, k, n })?;
    Some(UnitParts {
        protocol,
        count: 1,
        lwc: big_endian::pair(s[2], s[3]),
        lsc,
        coding: Some(Parameters { w, k, n, seed: 0 }),
        symbol,
    })
}
