// The sample blocks of document 01 that are tests, and short blocks. Each prints a line: close's answer, and whether one position is filled.
// C1 has W = 4 and C2 has W = 1, so that the buffers of C2 serve both. tests/vectors/samples.py makes the expected output.
#![tactic(auto)]

use block::Block;
use block_report::{Answer, pass};
use ccsds::code::Code;
use std::io;

// A sample: what it is, its block, the position of which its line tells whether it is filled, and which positions are heard.
#[derive(Drop)]
struct Sample<'a, F> {
    name: &'a str,
    block: Block,
    told: usize,
    hears: F,
}

// Bytes of a unit of C2.
const UNIT: usize = 15;

const UNITS: usize = Code::C2_N * UNIT;

// A block of C1.
fn c1(fill: usize) -> Block {
    Block {
        code: Code::C1.number,
        w: 4,
        protocol: 1,
        lsc: 7,
        fill,
    }
}

// A full block of C2.
fn c2() -> Block {
    Block {
        code: Code::C2.number,
        w: 1,
        protocol: 7,
        lsc: 65534,
        fill: Code::C2_K,
    }
}

// The positions that samples 2 and 3 miss: u_0 and 79 parity symbols.
fn missing(p: usize) -> bool {
    matches!(p, 0 | 553..=571 | 584..=609 | 734..=767)
}

// Whether a position is filled, in words.
fn filled(mark: u8) -> &'static str {
    if mark == block::status::FILLED {
        "filled"
    } else {
        "not filled"
    }
}

// Opens the block, takes the units that are heard, closes, and prints.
fn run<F: Fn(usize) -> bool>(
    rt: &impl Print,
    sample: &Sample<'_, F>,
    units: &[u8],
    symbols: &mut [u8],
    marks: &mut [u8],
) -> io::Result<()>
    requires { F.IsAlwaysCallable sample.now.hears }
{
    let b = sample.block;
    print!(rt; "{}: ", sample.name)?;
    if block::open::open(b, symbols, marks).is_err() {
        return print!(rt; "open refused");
    }
    for p in 0..marks.len() {
        if (sample.hears)(p) {
            pass::receive(b, units, p, symbols, marks);
        }
    }
    let closed = pass::close(b, symbols, marks);
    print!(rt;
        "{}, position {}",
        Answer { closed, all: true },
        sample.told
    )?;
    match marks.get(sample.told) {
        Some(mark) => print!(rt; " {}", filled(*mark)),
        None => Ok(()),
    }
}

// Sends and runs a sample, and prints its line; with `compare`, also whether the block is as sent. The buffers hold something before they are
// used, and there are as many marks as positions.
fn print_line<F: Fn(usize) -> bool>(
    rt: &impl Print,
    sample: &Sample<'_, F>,
    info: &[u8],
    parity: &[u8],
    compare: bool,
) -> io::Result<()>
    requires { F.IsAlwaysCallable sample.now.hears }
{
    let code = Code {
        number: sample.block.code,
    };
    let mut units = [0; UNITS];
    let mut symbols = [165; Code::C2_N];
    let mut marks = [165; Code::C2_N];
    pass::send_all(sample.block, info, parity, &mut units);
    if let Some(marks) = marks.get_mut(..code.n()) {
        run(rt, sample, &units, &mut symbols, marks)?;
    }
    if compare {
        print!(rt; ", {}", block_report::compared(&symbols, info, parity))?;
    }
    println!(rt; "")
}

// The information is a pattern.
fn pattern_sample<F: Fn(usize) -> bool>(rt: &impl Print, sample: &Sample<'_, F>) -> io::Result<()>
    requires { F.IsAlwaysCallable sample.now.hears }
{
    let b = sample.block;
    let code = Code { number: b.code };
    let mut info = [0; Code::C2_K];
    let mut parity = [0; Code::C2_M];
    let Some(info) = info.get_mut(..code.information_bytes(b.w, b.fill)) else {
        return Ok(());
    };
    report::fill(info, 1);
    let _ = encoder::encode::encode(b.code, b.w, b.fill, info, &mut parity);
    print_line(rt, sample, info, &parity, true)
}

// All is zero but the parity's byte `at`, which is `value`.
fn zero_sample<F: Fn(usize) -> bool>(
    rt: &impl Print,
    sample: &Sample<'_, F>,
    at: usize,
    value: u8,
) -> io::Result<()>
    requires { F.IsAlwaysCallable sample.now.hears }
{
    let b = sample.block;
    let code = Code { number: b.code };
    let info = [0; Code::C2_K];
    let mut parity = [0; Code::C2_M];
    let Some(info) = info.get(..code.information_bytes(b.w, b.fill)) else {
        return Ok(());
    };
    if let Some(b) = parity.get_mut(at) {
        *b = value;
    }
    print_line(rt, sample, info, &parity, false)
}

// The samples of document 01.
fn full_blocks(rt: &impl Print) -> io::Result<()> {
    let heard = Sample {
        name: "C1, positions 1 to 511 and 767 heard",
        block: c1(Code::C1_K),
        told: 0,
        hears: |p| matches!(p, 1..=511 | 767),
    };
    pattern_sample(rt, &heard)?;
    let missed = Sample {
        name: "C1, all zero, u_0 and 79 parity symbols missing",
        block: c1(Code::C1_K),
        told: 0,
        hears: |p| !missing(p),
    };
    zero_sample(rt, &missed, 0, 0)?;
    let p_60 = Sample {
        name: "C1, the same with p_60 missing too",
        block: c1(Code::C1_K),
        told: 572,
        hears: |p| p != 572 && !missing(p),
    };
    zero_sample(rt, &p_60, 0, 0)?;
    let nothing = Sample {
        name: "C2, nothing heard",
        block: c2(),
        told: Code::C2_N - 1,
        hears: |_| false,
    };
    zero_sample(rt, &nothing, 0, 0)?;
    let last = Sample {
        name: "C2, only LWC 3072 heard, byte 01",
        block: c2(),
        told: Code::C2_N - 1,
        hears: |p| p == Code::C2_N - 1,
    };
    zero_sample(rt, &last, Code::C2_M - 1, 1)
}

fn short_blocks(rt: &impl Print) -> io::Result<()> {
    let nothing = Sample {
        name: "C1, fill 1, nothing heard",
        block: c1(1),
        told: Code::C1_K,
        hears: |_| false,
    };
    zero_sample(rt, &nothing, 0, 0)?;
    let heard = Sample {
        name: "C1, fill 100, positions 1 to 99 and 767 heard",
        block: c1(100),
        told: 0,
        hears: |p| matches!(p, 1..=99 | 767),
    };
    pattern_sample(rt, &heard)?;
    let first = Sample {
        name: "C1, fill 1, only LWC 513 heard, first byte 01",
        block: c1(1),
        told: Code::C1_K,
        hears: |p| p == Code::C1_K,
    };
    zero_sample(rt, &first, 0, 1)
}

fn main(rt: HostRuntime) -> io::Result<()> {
    full_blocks(&rt)?;
    short_blocks(&rt)
}
