// Encodes a fixed pattern with each code at several widths and fills, and prints the parity's first bytes and checksum. The expected
// output is made by tests/vectors/encode.py, which shares no code with this repository's encoder.
#![tactic(auto)]

use ccsds::code::Code;
use report::Digest;
use std::io;

const CODES: [Code; 6] = [Code::C1, Code::C2, Code::C4, Code::C5, Code::C7, Code::C8];

// The information and the parity of the largest block.
const INFORMATION: usize = Code::C2_K * Code::MAX_WIDTH;

const PARITY: usize = Code::C2_M * Code::MAX_WIDTH;

// Encodes a pattern, and prints a line. The parity buffer holds another pattern before.
fn encode(
    rt: &impl Print,
    code: usize,
    w: usize,
    fill: usize,
    info: &mut [u8],
    parity: &mut [u8],
) -> io::Result<()> {
    report::fill(info, 1);
    report::fill(parity, 2);
    print!(rt; "C{code} W {w} fill {fill} ")?;
    match encoder::encode::encode(code, w, fill, info, parity) {
        Ok(()) => print!(rt; "parity")?,
        Err(refusal) => print!(rt; "refused {}", refusal.number())?,
    }
    println!(rt; "{}", Digest::of(parity, 8))
}

// The same with the parts of the buffers that code, width and fill ask for.
fn run(
    rt: &impl Print,
    code: Code,
    w: usize,
    fill: usize,
    info: &mut [u8],
    parity: &mut [u8],
) -> io::Result<()> {
    let Some(info) = info.get_mut(..code.information_bytes(w, fill)) else {
        return Ok(());
    };
    let Some(parity) = parity.get_mut(..code.parity_bytes(w)) else {
        return Ok(());
    };
    encode(rt, code.number, w, fill, info, parity)
}

// The fills of a code's short blocks: at their borders, in and about a table row, and past half of all. Nothing here bounds the code's
// numbers; for those of a code nothing saturates.
fn short_fills(code: Code) -> [usize; 8] {
    let k = code.k();
    let q = code.q();
    [
        0,
        1,
        q.saturating_sub(1),
        q,
        q.saturating_add(1),
        k / 2 + 3,
        k.saturating_sub(1),
        k.saturating_add(1),
    ]
}

fn main(rt: HostRuntime) -> io::Result<()> {
    let mut info = [0; INFORMATION];
    let mut parity = [0; PARITY];
    for w in [1, 2, 3, 16, 333, 1023, 1024, 1025] {
        for code in CODES {
            run(&rt, code, w, code.k(), &mut info, &mut parity)?;
        }
    }
    // Numbers that are no code's.
    for number in [0, 3, 6, 9] {
        let none = Code { number };
        run(&rt, none, 1, Code::C1_K, &mut info, &mut parity)?;
    }
    for w in [5, 100] {
        for code in CODES {
            for fill in short_fills(code) {
                run(&rt, code, w, fill, &mut info, &mut parity)?;
            }
        }
    }
    Ok(())
}
