// The steps of a pass, as the programs take them. The units of a block stand one after the other, in the order of their positions; the place
// of an idle position stays as it is.
use block::Block;
use block::take::Taken;
use ccsds::code::Code;
use ccsds::refusal::Refusal;
use closing::Report;

// Writes the unit of LWC lwc: whether it is not refused, as it is for an idle position.
fn send(b: Block, info: &[u8], parity: &[u8], lwc: usize, unit: &mut [u8]) -> bool {
    let symbol = sending::show::show(b.code, b.w, b.fill, info, parity, lwc);
    sending::writer::write(b.code, b.w, b.protocol, b.lsc, b.fill, lwc, symbol, unit).is_ok()
}

// Writes the units of all positions that are not idle. Answers how many.
pub fn send_all(b: Block, info: &[u8], parity: &[u8], units: &mut [u8]) -> usize {
    let code = Code { number: b.code };
    let u = code.unit_bytes(b.w);
    if u == 0 {
        return 0;
    }
    let mut places = units.chunks_exact_mut(u);
    let mut written = 0;
    for lwc in 1..=code.n() {
        let Some(unit) = places.next() else {
            break;
        };
        if send(b, info, parity, lwc, unit) {
            written += 1;
        }
    }
    written
}

// The unit of position p among units of u bytes each, if it stands there.
fn unit_at(units: &[u8], u: usize, p: usize) -> Option<&[u8]> {
    let at = p.checked_mul(u)?;
    units.get(at..)?.get(..u)
}

// Takes the unit of position p: whether it is kept.
pub fn receive(b: Block, units: &[u8], p: usize, symbols: &mut [u8], marks: &mut [u8]) -> bool {
    let code = Code { number: b.code };
    match unit_at(units, code.unit_bytes(b.w), p) {
        Some(unit) => block::take::take(b, symbols, marks, unit) == Ok(Taken::Kept),
        None => false,
    }
}

// Closes the block with the parts of two work buffers that its code and width ask for: those of either code, with 4,096 bytes for parity. They
// hold something before they are used.
pub fn close(b: Block, symbols: &mut [u8], marks: &mut [u8]) -> Result<Report, Refusal> {
    let code = Code { number: b.code };
    let mut words = [12297829382473034411; Code::C2_WORDS];
    let mut bytes = [90; 4096];
    let Some(words) = words.get_mut(..code.work_words()) else {
        return Err(Refusal::Length);
    };
    let Some(bytes) = bytes.get_mut(..code.parity_bytes(b.w)) else {
        return Err(Refusal::Length);
    };
    closing::close(b, symbols, marks, words, bytes)
}
