// Runs vectors from outside through the unit reader, the unit writer and show, and prints a line for each. tests/vectors/units.py makes
// the vectors (stdin) and the lines (stdout); it shares no code with this repository.
#![tactic(auto)]

use ccsds::code::Code;
use report::Digest;
use std::io;
use std::io::Read;

// What a vector asks for.
#[derive(Clone, Copy)]
enum Kind {
    Read,
    Write,
    Show,
    Size,
}

// The number that ends the vectors.
#[derive(Clone, Copy)]
struct End;

impl TryFrom<usize> for Kind {
    type Error = End;

    fn try_from(number: usize) -> Result<Self, End> {
        match number {
            0 => Err(End),
            1 => Ok(Kind::Read),
            2 => Ok(Kind::Write),
            3 => Ok(Kind::Show),
            _ => Ok(Kind::Size),
        }
    }
}

// A vector is nine numbers, of four bytes each, and the bytes of the last number's count.
#[derive(Clone, Copy)]
struct Vector {
    kind: Kind,
    code: usize,
    w: usize,
    protocol: usize,
    lsc: usize,
    fill: usize,
    lwc: usize,
    outs: usize,
    len: usize,
}

// The most vectors, the bytes of the longest one and of the longest output, and how many of a buffer are printed.
const VECTORS: usize = 100000;

const VECTOR: usize = 4096;

const OUTPUT: usize = 4096;

const SHOWN: usize = 18;

// The next number from standard input; 0 where the input has ended.
fn number(input: &mut impl Read) -> io::Result<usize> {
    let mut b = [0; 4];
    report::read_full(input, &mut b)?;
    Ok(u32::from_be_bytes(b) as usize)
}

// The numbers of the next vector, if there is one.
fn next(input: &mut impl Read) -> io::Result<Option<Vector>> {
    let mut numbers = [0; 9];
    for n in numbers.iter_mut() {
        *n = number(input)?;
    }
    let [kind, code, w, protocol, lsc, fill, lwc, outs, len] = numbers;
    let Ok(kind) = Kind::try_from(kind) else {
        return Ok(None);
    };
    Ok(Some(Vector {
        kind,
        code,
        w,
        protocol,
        lsc,
        fill,
        lwc,
        outs,
        len,
    }))
}

// Reads a unit.
fn read(rt: &impl Print, u: &[u8]) -> io::Result<()> {
    let p = match unit_reader::read_unit(u) {
        Ok(p) => p,
        Err(refusal) => return println!(rt; "read: refused {}", refusal.number()),
    };
    print!(rt;
        "read: protocol {} count {} LWC {} LSC {}",
        p.protocol, p.count, p.lwc, p.lsc
    )?;
    match p.coding {
        Some(c) => print!(rt; " W {} k {} n {} seed {}", c.w, c.k, c.n, c.seed)?,
        None => print!(rt; " no type 1")?,
    }
    println!(rt; " symbol at {}", p.symbol)
}

// Writes a unit into an output of the vector's size, all of whose bytes are EE, and reads it.
fn write(rt: &impl Print, v: Vector, symbol: &[u8]) -> io::Result<()> {
    let mut out = [238; OUTPUT];
    let Some(out) = out.get_mut(..v.outs) else {
        return Ok(());
    };
    match sending::writer::write(v.code, v.w, v.protocol, v.lsc, v.fill, v.lwc, symbol, out) {
        Ok(()) => {
            println!(rt; "write:{}", Digest::of(out, SHOWN))?;
            read(rt, out)
        }
        Err(refusal) => {
            let number = refusal.number();
            println!(rt; "write: refused {number}{}", Digest::of(out, SHOWN))
        }
    }
}

// Shows a symbol of the vector's bytes: the first `outs` are the information, and the others the parity.
fn show(rt: &impl Print, v: Vector, body: &[u8]) -> io::Result<()> {
    let Some((info, parity)) = body.split_at_checked(v.outs) else {
        return Ok(());
    };
    let symbol = sending::show::show(v.code, v.w, v.fill, info, parity, v.lwc);
    println!(rt; "show: {}{}", symbol.len(), Digest::of(symbol, SHOWN))
}

// The length of a unit.
fn size(rt: &impl Print, v: Vector) -> io::Result<()> {
    let code = Code { number: v.code };
    println!(rt; "unit bytes: {}", code.unit_bytes(v.w))
}

fn main(rt: HostRuntime) -> io::Result<()> {
    let mut input = rt.stdin();
    let mut buffer = [0; VECTOR];
    for _ in 0..VECTORS {
        let Some(v) = next(&mut input)? else {
            break;
        };
        let Some(body) = buffer.get_mut(..v.len) else {
            break;
        };
        report::read_full(&mut input, body)?;
        match v.kind {
            Kind::Read => read(&rt, body)?,
            Kind::Write => write(&rt, v, body)?,
            Kind::Show => show(&rt, v, body)?,
            Kind::Size => size(&rt, v)?,
        }
    }
    Ok(())
}
