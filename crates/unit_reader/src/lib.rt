// The unit reader: what a unit's bytes say, by themselves.
#![tactic(auto)]

ghost use Rattle.std.specs.Prelude.{◌≡◌};
ghost use Rattle.unit_reader.specs.Reader.{number_as, length_at, parameter_at, coding_of, wrong_type, extension_at, extensions_of, wrong_header, read_unit, coding_as, walk_as, read_as};

use ccsds::refusal::Refusal;
use wire::sdnv::{Number, SdnvError};
use wire::{big_endian, sdnv};

// The length at a position, of a value that ends within the bytes.
#[tactic(auto, unfolding(crate::specs::Reader::length_at))]
fn read_length(s: &[u8], at: usize) -> Result<Number, Refusal>
    ensures { number_as result ≡ length_at s.now at }
{
    let answer = sdnv::number_at(s, at);
    if let Err(SdnvError::Wrong) = answer {
        return Err(Refusal::Number);
    }
    let Ok(x) = answer else {
        return Err(Refusal::Extension);
    };
    if x.end + x.value > s.len() {
        return Err(Refusal::Extension);
    }
    Ok(x)
}

// The number at a position of a type 1's value.
fn read_parameter(v: &[u8], at: usize) -> Result<Number, Refusal>
    ensures { number_as result ≡ parameter_at v.now at }
{
    match sdnv::number_at(v, at) {
        Ok(x) => Ok(x),
        Err(SdnvError::Unfinished) => Err(Refusal::Kind),
        Err(SdnvError::Wrong) => Err(Refusal::Number),
    }
}

// The coding parameters.
#[derive(Clone, Copy)]
pub struct Parameters {
    pub w: usize,
    pub k: usize,
    pub n: usize,
    pub seed: usize,
}

// The value of a type 1: exactly four numbers.
#[tactic(auto, unfolding(crate::specs::Reader::coding_of))]
fn read_parameters(v: &[u8]) -> Result<Parameters, Refusal>
    ensures { coding_as result ≡ coding_of v.now }
{
    let w = read_parameter(v, 0)?;
    let k = read_parameter(v, w.end)?;
    let n = read_parameter(v, k.end)?;
    let seed = read_parameter(v, n.end)?;
    if seed.end != v.len() {
        return Err(Refusal::Kind);
    }
    Ok(Parameters {
        w: w.value,
        k: k.value,
        n: n.value,
        seed: seed.value,
    })
}

// What one extension or several say: the coding parameters, if a type 1 came, and the position after them.
#[derive(Clone, Copy)]
pub struct Extensions {
    pub coding: Option<Parameters>,
    pub end: usize,
}

// Not 1 to 254, or a second 1: `came` says whether a type 1 came before.
#[tactic(auto, unfolding(crate::specs::Reader::wrong_type))]
fn wrong_type(came: bool, kind: u8) -> bool
    ensures { result ≡ wrong_type came kind }
{
    match kind {
        0 | 255 => true,
        1 => came,
        _ => false,
    }
}

// The extension at a position. `came` says whether a type 1 came before.
#[tactic(auto, unfolding(crate::specs::Reader::extension_at, crate::specs::Reader::value_of))]
fn read_extension(s: &[u8], came: bool, at: usize) -> Result<Extensions, Refusal>
    ensures { walk_as result ≡ extension_at s.now came at }
{
    if at >= s.len() {
        return Err(Refusal::Extension);
    }
    let kind = s[at];
    if wrong_type(came, kind) {
        return Err(Refusal::Kind);
    }
    let len = read_length(s, at + 1)?;
    let start = len.end;
    let end = start + len.value;
    if kind != 1 {
        return Ok(Extensions { coding: None, end });
    }
    let p = read_parameters(&s[start..end])?;
    Ok(Extensions {
        coding: Some(p),
        end,
    })
}

// The extensions of a unit, so many.
#[tactic(auto, unfolding(crate::specs::Reader::extensions_of))]
fn walk_extensions(s: &[u8], count: usize) -> Result<Extensions, Refusal>
    ensures { walk_as result ≡ extensions_of s.now count }
{
    let mut coding = None;
    let mut end = 6;
    for i in 0..count {
        let x = read_extension(s, coding.is_some(), end)?;
        coding = x.coding.or(coding);
        end = x.end;
    }
    Ok(Extensions { coding, end })
}

// What a unit says: the header's numbers, the coding parameters, if they came, and where the symbol starts.
#[derive(Clone, Copy)]
pub struct UnitParts {
    pub protocol: usize,
    pub count: usize,
    pub lwc: usize,
    pub lsc: usize,
    pub coding: Option<Parameters>,
    pub symbol: usize,
}

// Under 6 bytes, version not 1, reserved bit set, or extension count 0.
#[tactic(auto, unfolding(crate::specs::Reader::wrong_header))]
fn wrong_header(s: &[u8]) -> bool
    ensures { result ≡ wrong_header s.now }
{
    s.len() < 6 || s[0] / 16 != 1 || s[0] % 2 != 0 || s[1] == 0
}

// Reads a unit.
#[tactic(auto, using(crate::proofs::ReaderLaws::six_bytes), unfolding(crate::specs::Reader::read_unit))]
pub fn read_unit(s: &[u8]) -> Result<UnitParts, Refusal>
    ensures { read_as result ≡ read_unit s.now }
{
    if wrong_header(s) {
        return Err(Refusal::Header);
    }
    let count = usize::from(s[1]);
    let x = walk_extensions(s, count)?;
    Ok(UnitParts {
        protocol: usize::from(s[0]) / 2 % 8,
        count,
        lwc: big_endian::pair(s[2], s[3]),
        lsc: big_endian::pair(s[4], s[5]),
        coding: x.coding,
        symbol: x.end,
    })
}
