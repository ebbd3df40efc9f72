// A pass end to end. Standard input is a scene. It is cut into blocks of C1, with symbols of 16 bytes; where it ends within a block, that
// block is short. Each block is encoded and sent as units; some are lost, the others arrive in another order and are taken; the block
// is closed and compared with what was sent.
#![tactic(auto)]

use block::Block;
use block_report::{Answer, pass};
use ccsds::code::Code;
use report::Digest;
use std::io;
use std::io::Read;

// Bytes of a symbol, and of a unit.
const WIDTH: usize = 16;

const UNIT: usize = 30;

const INFORMATION: usize = Code::C1_K * WIDTH;

const PARITY: usize = Code::C1_M * WIDTH;

const SYMBOLS: usize = Code::C1_N * WIDTH;

const UNITS: usize = Code::C1_N * UNIT;

// Above the last block's number: what comes after that block is not sent.
const LSC_END: usize = 65535;

// Whether position p is not idle, so that its unit is sent.
fn sent(b: Block, p: usize) -> bool {
    p < b.fill || p >= Code::C1_K
}

// Whether the unit of position p is lost: 3 of 10 are.
fn lost(p: usize) -> bool {
    p % 1000 * 7919 % 1000 < 300
}

// How many units are lost.
fn count_lost(b: Block) -> usize {
    (0..Code::C1_N).filter(|p| sent(b, *p) && lost(*p)).count()
}

// Takes the units that arrive, in another order: 385 has no factor in common with n. Answers how many are kept.
fn receive_all(b: Block, units: &[u8], symbols: &mut [u8], marks: &mut [u8]) -> usize {
    let mut kept = 0;
    for i in 0..Code::C1_N {
        let p = i * 385 % Code::C1_N;
        if sent(b, p) && !lost(p) && pass::receive(b, units, p, symbols, marks) {
            kept += 1;
        }
    }
    kept
}

// Opens the block, takes what arrives, closes, and prints.
fn gather(rt: &impl Print, b: Block, units: &[u8], symbols: &mut [u8]) -> io::Result<()> {
    let mut marks = [0; Code::C1_N];
    if block::open::open(b, symbols, &mut marks).is_err() {
        return println!(rt; "open refused");
    }
    let kept = receive_all(b, units, symbols, &mut marks);
    println!(rt; ", lost {}, kept {kept}", count_lost(b))?;
    let closed = pass::close(b, symbols, &mut marks);
    print!(rt; "closed: {}", Answer { closed, all: true })
}

// Sends the block, gathers it, and compares.
fn transmit(rt: &impl Print, b: Block, info: &[u8], parity: &[u8]) -> io::Result<()> {
    let mut units = [0; UNITS];
    let mut symbols = [0; SYMBOLS];
    let written = pass::send_all(b, info, parity, &mut units);
    println!(rt; "units{}", Digest::of(&units, 8))?;
    print!(rt; "units written {written}")?;
    gather(rt, b, &units, &mut symbols)?;
    println!(rt; ", {}", block_report::compared(&symbols, info, parity))
}

// Encodes the block, prints its information and its parity, and transmits it.
fn run(rt: &impl Print, b: Block, info: &[u8]) -> io::Result<()> {
    let mut parity = [0; PARITY];
    println!(rt; "information{}", Digest::of(info, 8))?;
    match encoder::encode::encode(b.code, b.w, b.fill, info, &mut parity) {
        Ok(()) => print!(rt; "parity")?,
        Err(refusal) => print!(rt; "refused {}", refusal.number())?,
    }
    println!(rt; "{}", Digest::of(&parity, 8))?;
    transmit(rt, b, info, &parity)
}

// Runs the next block: false where the input ends with it or before it. No Option: a block that was run may be the last one.
fn next(rt: &impl Print, input: &mut impl Read, lsc: usize) -> io::Result<bool> {
    let mut buffer = [0; INFORMATION];
    let n = report::read_full(input, &mut buffer)?;
    if n == 0 {
        return Ok(false);
    }
    // The last symbol may end with zeros.
    let fill = n.div_ceil(WIDTH);
    println!(rt; "block {lsc}: bytes {n}, fill {fill}")?;
    let b = Block {
        code: Code::C1.number,
        w: WIDTH,
        protocol: 1,
        lsc,
        fill,
    };
    let code = Code { number: b.code };
    if let Some(info) = buffer.get(..code.information_bytes(b.w, fill)) {
        run(rt, b, info)?;
    }
    Ok(n == INFORMATION)
}

fn main(rt: HostRuntime) -> io::Result<()> {
    let mut input = rt.stdin();
    for lsc in 7..LSC_END {
        if !next(&rt, &mut input, lsc)? {
            break;
        }
    }
    Ok(())
}
