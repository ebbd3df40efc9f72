// The program gather of document 01: gathers the units of standard input into a full block of C1, W up to 16, and closes it.
#![tactic(auto)]

use block::Block;
use block::take::Taken;
use block_report::{Answer, pass};
use ccsds::code::Code;
use std::io;
use std::io::Read;

// Bytes of the longest symbol, and of all symbols.
const WIDTH: usize = 16;

const SYMBOLS: usize = Code::C1_N * WIDTH;

// Above the bytes of every unit whose length two bytes tell.
const UNIT: usize = 65536;

fn bad_input(rt: &impl Print) -> io::Result<()> {
    println!(rt; "bad input")
}

// The next unit, at the start of a buffer that holds a unit of any length; none where the input ends before it does.
fn next<'b>(input: &mut impl Read, buffer: &'b mut [u8]) -> io::Result<Option<&'b [u8]>> {
    let mut head = [0; 2];
    if report::read_full(input, &mut head)? < 2 {
        return Ok(None);
    }
    let n = usize::from(u16::from_be_bytes(head));
    let Some(unit) = buffer.get_mut(..n) else {
        return Ok(None);
    };
    if report::read_full(input, unit)? < n {
        return Ok(None);
    }
    Ok(Some(unit))
}

// Gathers every unit, and prints a line for each. Nothing proves that an input ends; with a last number the loop does. No input has as many units:
// they would take at least 2^65 bytes.
fn gather(
    rt: &impl Print,
    input: &mut impl Read,
    b: Block,
    symbols: &mut [u8],
    marks: &mut [u8],
) -> io::Result<()> {
    let mut buffer = [0; UNIT];
    for number in 1..usize::MAX {
        let Some(unit) = next(input, &mut buffer)? else {
            break;
        };
        match block::take::take(b, symbols, marks, unit) {
            Ok(Taken::Kept) => println!(rt; "{number} kept")?,
            Ok(Taken::Repeated) => println!(rt; "{number} repeated")?,
            Err(refusal) => println!(rt; "{number} refused {}", refusal.number())?,
        }
    }
    Ok(())
}

// Opens the block, gathers, and closes. A block of another code has not as many marks as are lent, and is refused.
fn run(rt: &impl Print, input: &mut impl Read, b: Block) -> io::Result<()> {
    let code = Code { number: b.code };
    let mut symbols = [0; SYMBOLS];
    let mut marks = [0; Code::C1_N];
    let Some(symbols) = symbols.get_mut(..code.block_bytes(b.w)) else {
        return bad_input(rt);
    };
    if block::open::open(b, symbols, &mut marks).is_err() {
        return bad_input(rt);
    }
    gather(rt, input, b, symbols, &mut marks)?;
    let closed = pass::close(b, symbols, &mut marks);
    println!(rt; "{}", Answer { closed, all: false })
}

fn main(rt: HostRuntime) -> io::Result<()> {
    let mut input = rt.stdin();
    let mut head = [0; 6];
    if report::read_full(&mut input, &mut head)? < 6 {
        return bad_input(&rt);
    }
    let [code, w1, w0, protocol, lsc1, lsc0] = head;
    let b = Block {
        code: usize::from(code),
        w: usize::from(u16::from_be_bytes([w1, w0])),
        protocol: usize::from(protocol),
        lsc: usize::from(u16::from_be_bytes([lsc1, lsc0])),
        fill: Code::C1_K,
    };
    run(&rt, &mut input, b)
}
