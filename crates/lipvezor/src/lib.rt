// The calls for C and Rust (include/lipvezor.h). Numbers pass as themselves, a slice as a pointer and then a length in elements, a record
// (a block's numbers; what a call has to say beside done or refused) as a pointer to an array of its values. Slices that belong together
// pass as a pointer to a record of their pointers and lengths; no call writes to that record. Each call answers 0, or the number of its
// refusal; the values of records are those of specs/Numbers.antt.
#![tactic(auto)]

ghost use Rattle.std.specs.Prelude.{◌≡◌, ◌+◌, ◌*◌, ◌/◌};
ghost use Rattle.ccsds.specs.Codes.{n_of};
ghost use Rattle.ccsds.specs.Tables.{code_of};
ghost use Rattle.ccsds.specs.Refusals.{bytes_of, information_bytes, checked_as, outcome_of};
ghost use Rattle.ccsds.specs.Units.{unit_bytes};
ghost use Rattle.unit_reader.specs.Reader.{read_unit};
ghost use Rattle.tiles.specs.Pack.{rows_told};
ghost use Rattle.block.specs.inner.Steps.{parts_as};
ghost use Rattle.block.specs.Take.{result_as};
ghost use Rattle.closing.specs.Close.{verdict_as, report_as};
ghost use Rattle.lipvezor.specs.Numbers.{version, block_of, number_of, record_after, parts_values, result_values, verdict_number, report_values};
ghost use Rattle.lipvezor.specs.Sending.{packing, copy_refusal, showing, writing};
ghost use Rattle.lipvezor.specs.Lent.{codeword_after, buffers_after, work_after, encoding_lent, opening, taking, closing};

use block::Block;
use block::take::Taken;
use ccsds::code::Code;
use ccsds::refusal::Refusal;
use closing::{Report, Verdict};
use unit_reader::UnitParts;

// A block's buffers on board: the information symbols, and the parity symbols that encode makes of them. In C, lipvezor_codeword.
#[repr(C)]
#[derive(Drop)]
pub struct Codeword<'a, 'b> {
    pub information: &'a [u8],
    pub parity: &'b mut [u8],
}

// What is sent: the same two buffers, once encode has made the parity symbols. In C, lipvezor_codeword too.
#[repr(C)]
#[derive(Drop)]
pub struct Sent<'a> {
    pub information: &'a [u8],
    pub parity: &'a [u8],
}

// A block's buffers on the ground. In C, lipvezor_buffers.
#[repr(C)]
#[derive(Drop)]
pub struct Buffers<'a> {
    pub symbols: &'a mut [u8],
    pub marks: &'a mut [u8],
}

// Close's work memory. In C, lipvezor_work.
#[repr(C)]
#[derive(Drop)]
pub struct Work<'a> {
    pub words: &'a mut [u64],
    pub bytes: &'a mut [u8],
}

// The version of this library, as the header's LIPVEZOR_VERSION.
#[unsafe(no_mangle)]
pub extern "C" fn lipvezor_version() -> usize
    ensures { result ≡ version }
{
    501
}

// Symbols of a block, and bytes of its marks.
#[unsafe(no_mangle)]
pub extern "C" fn lipvezor_n(code: usize) -> usize
    ensures { result ≡ n_of (code_of code) }
{
    let c = Code { number: code };
    c.n()
}

// Information symbols.
#[unsafe(no_mangle)]
pub extern "C" fn lipvezor_k(code: usize) -> usize
    ensures { result ≡ (code_of code).k }
{
    let c = Code { number: code };
    c.k()
}

// Parity symbols.
#[unsafe(no_mangle)]
pub extern "C" fn lipvezor_m(code: usize) -> usize
    ensures { result ≡ (code_of code).m }
{
    let c = Code { number: code };
    c.m()
}

// Bytes of the information buffer.
#[unsafe(no_mangle)]
pub extern "C" fn lipvezor_information_bytes(code: usize, w: usize, fill: usize) -> usize
    ensures { result ≡ information_bytes code w fill }
{
    let c = Code { number: code };
    c.information_bytes(w, fill)
}

// Bytes of the parity buffer.
#[unsafe(no_mangle)]
pub extern "C" fn lipvezor_parity_bytes(code: usize, w: usize) -> usize
    ensures { result ≡ bytes_of (code_of code).m w }
{
    let c = Code { number: code };
    c.parity_bytes(w)
}

// Bytes of a block's symbols.
#[unsafe(no_mangle)]
pub extern "C" fn lipvezor_symbol_bytes(code: usize, w: usize) -> usize
    ensures { result ≡ bytes_of (n_of (code_of code)) w }
{
    let c = Code { number: code };
    c.block_bytes(w)
}

// Bytes of a unit.
#[unsafe(no_mangle)]
pub extern "C" fn lipvezor_unit_bytes(code: usize, w: usize) -> usize
    ensures { result ≡ unit_bytes code w }
{
    let c = Code { number: code };
    c.unit_bytes(w)
}

// 64-bit words of close's first work buffer.
#[unsafe(no_mangle)]
pub extern "C" fn lipvezor_work_words(code: usize) -> usize
    ensures { result ≡ (code_of code).m * (n_of (code_of code) / 64 + 1) }
{
    let c = Code { number: code };
    c.work_words()
}

// Bytes of close's second work buffer.
#[unsafe(no_mangle)]
pub extern "C" fn lipvezor_work_bytes(code: usize, w: usize) -> usize
    ensures { result ≡ bytes_of (code_of code).m w }
{
    let c = Code { number: code };
    c.parity_bytes(w)
}

// Rows that tiles of these lengths need.
#[unsafe(no_mangle)]
pub extern "C" fn lipvezor_rows_needed(w: usize, lengths: &[usize]) -> usize
    ensures { result ≡ rows_told w lengths.now }
{
    tiles::lengths::rows_needed(w, lengths)
}

// The block of a record. No From: neither type is this crate's.
#[tactic(auto, unfolding(crate::specs::Numbers::block_of))]
fn block_of(numbers: &[usize; 5]) -> Block
    ensures { result ≡ block_of numbers.now }
{
    Block {
        code: numbers[0],
        w: numbers[1],
        protocol: numbers[2],
        lsc: numbers[3],
        fill: numbers[4],
    }
}

// What a call answers: 0, or the number of its refusal.
fn number_of<T>(answer: &Result<T, Refusal>) -> u8
    ensures { result ≡ number_of (outcome_of answer.now) }
{
    match answer {
        Ok(_) => 0,
        Err(refusal) => refusal.number(),
    }
}

// Pack: tiles, by their joined bytes and their lengths.
#[unsafe(no_mangle)]
pub extern "C" fn lipvezor_pack(
    numbers: &[usize; 5],
    joined: &[u8],
    lengths: &[usize],
    out: &mut [u8],
) -> u8
    ensures answer { result ≡ number_of (packing (block_of numbers.now) joined.now lengths.now out.old).answer }
    ensures output { out.new ≡ (packing (block_of numbers.now) joined.now lengths.now out.old).output }
{
    let b = block_of(numbers);
    number_of(&tiles::pack::pack(b.code, b.w, b.fill, joined, lengths, out))
}

// Encode.
#[unsafe(no_mangle)]
pub extern "C" fn lipvezor_encode(numbers: &[usize; 5], codeword: &mut Codeword) -> u8
    ensures answer { result ≡ number_of (encoding_lent numbers.now codeword.old).answer }
    ensures codeword { codeword.new ≡ codeword_after codeword.old (encoding_lent numbers.now codeword.old).output }
{
    let b = block_of(numbers);
    number_of(&encoder::encode::encode(
        b.code,
        b.w,
        b.fill,
        codeword.information,
        &mut *codeword.parity,
    ))
}

// Show's refusals, and an output that is not W bytes.
fn check_copy(
    b: Block,
    info_len: usize,
    parity_len: usize,
    lwc: usize,
    out_len: usize,
) -> Result<(), Refusal>
    ensures { checked_as result ≡ copy_refusal b.code b.w b.fill info_len parity_len lwc out_len }
{
    ccsds::checks::check_encoder(b.code, b.w, b.fill, info_len, parity_len)?;
    if out_len != b.w {
        return Err(Refusal::Length);
    }
    let c = Code { number: b.code };
    if c.wrong_position(lwc) {
        return Err(Refusal::Position);
    }
    if ccsds::checks::idle_lwc(c.k(), b.fill, lwc) {
        return Err(Refusal::Idle);
    }
    Ok(())
}

// Show, copied to an output of W bytes.
fn copy_shown<'a, 'b>(
    b: Block,
    info: &'a [u8],
    parity: &'a [u8],
    lwc: usize,
    out: &'b mut [u8],
) -> Result<(), Refusal>
    ensures answer { outcome_of result ≡ (showing b info.entry parity.entry lwc out.old).answer }
    ensures output { out.new ≡ (showing b info.entry parity.entry lwc out.old).output }
{
    check_copy(b, info.len(), parity.len(), lwc, out.len())?;
    let shown = sending::show::show(b.code, b.w, b.fill, info, parity, lwc);
    buffers::put_from(out, 0, shown, 0, shown.len());
    Ok(())
}

// Show, copied to an output.
#[unsafe(no_mangle)]
pub extern "C" fn lipvezor_show(numbers: &[usize; 5], sent: &Sent, lwc: usize, out: &mut [u8]) -> u8
    ensures answer { result ≡ number_of (showing (block_of numbers.now) sent.now.information sent.now.parity lwc out.old).answer }
    ensures output { out.new ≡ (showing (block_of numbers.now) sent.now.information sent.now.parity lwc out.old).output }
{
    number_of(&copy_shown(block_of(numbers), sent.information, sent.parity, lwc, out))
}

// Write.
#[unsafe(no_mangle)]
pub extern "C" fn lipvezor_write(
    numbers: &[usize; 5],
    lwc: usize,
    symbol: &[u8],
    out: &mut [u8],
) -> u8
    ensures answer { result ≡ number_of (writing (block_of numbers.now) lwc symbol.now out.old).answer }
    ensures output { out.new ≡ (writing (block_of numbers.now) lwc symbol.now out.old).output }
{
    let b = block_of(numbers);
    number_of(&sending::writer::write(b.code, b.w, b.protocol, b.lsc, b.fill, lwc, symbol, out))
}

// A unit's parts as the values of their record.
fn parts_values(p: UnitParts) -> [usize; 10]
    ensures { result ≡ parts_values (parts_as p) }
{
    match p.coding {
        Some(q) => [
            p.protocol, p.count, p.lwc, p.lsc, p.symbol, 1, q.w, q.k, q.n, q.seed,
        ],
        None => [p.protocol, p.count, p.lwc, p.lsc, p.symbol, 0, 0, 0, 0, 0],
    }
}

// The unit reader, with the parts in the lent record (lipvezor_parts).
#[unsafe(no_mangle)]
pub extern "C" fn lipvezor_read(unit: &[u8], parts: &mut [usize; 10]) -> u8
    ensures answer { result ≡ number_of (read_unit unit.now) }
    ensures parts { parts.new ≡ record_after parts_values parts.old (read_unit unit.now) }
{
    match unit_reader::read_unit(unit) {
        Ok(p) => {
            *parts = parts_values(p);
            0
        }
        Err(refusal) => refusal.number(),
    }
}

// Open.
#[unsafe(no_mangle)]
pub extern "C" fn lipvezor_open(numbers: &[usize; 5], buffers: &mut Buffers) -> u8
    ensures answer { result ≡ number_of (opening numbers.now buffers.old).answer }
    ensures buffers { buffers.new ≡ buffers_after buffers.old (opening numbers.now buffers.old).symbols (opening numbers.now buffers.old).marks }
{
    let b = block_of(numbers);
    number_of(&block::open::open(b, &mut *buffers.symbols, &mut *buffers.marks))
}

// What take did, as the value of its record.
fn taken_values(t: Taken) -> [usize; 1]
    ensures { result ≡ result_values (result_as t) }
{
    match t {
        Taken::Kept => [1],
        Taken::Repeated => [2],
    }
}

// Take, with what it did in the lent record (lipvezor_taken).
#[unsafe(no_mangle)]
pub extern "C" fn lipvezor_take(
    numbers: &[usize; 5],
    buffers: &mut Buffers,
    unit: &[u8],
    taken: &mut [usize; 1],
) -> u8
    ensures answer { result ≡ number_of (taking numbers.now buffers.old unit.now).answer }
    ensures buffers { buffers.new ≡ buffers_after buffers.old (taking numbers.now buffers.old unit.now).symbols (taking numbers.now buffers.old unit.now).marks }
    ensures taken { taken.new ≡ record_after result_values taken.old (taking numbers.now buffers.old unit.now).answer }
{
    let b = block_of(numbers);
    match block::take::take(b, &mut *buffers.symbols, &mut *buffers.marks, unit) {
        Ok(t) => {
            *taken = taken_values(t);
            0
        }
        Err(refusal) => refusal.number(),
    }
}

// A verdict's number. No From: neither type is this crate's.
fn verdict_number(v: Verdict) -> usize
    ensures { result ≡ verdict_number (verdict_as v) }
{
    match v {
        Verdict::Whole => 1,
        Verdict::Ambiguous => 2,
        Verdict::Inconsistent => 3,
    }
}

// A report as the values of its record.
fn report_values(r: Report) -> [usize; 4]
    ensures { result ≡ report_values (report_as r) }
{
    [verdict_number(r.verdict), r.heard, r.filled, r.left]
}

// Close, with the verdict and the counts of heard, filled and left positions in the lent record (lipvezor_report).
#[unsafe(no_mangle)]
pub extern "C" fn lipvezor_close(
    numbers: &[usize; 5],
    buffers: &mut Buffers,
    work: &mut Work,
    report: &mut [usize; 4],
) -> u8
    ensures answer { result ≡ number_of (closing numbers.now buffers.old work.old).answer }
    ensures buffers { buffers.new ≡ buffers_after buffers.old (closing numbers.now buffers.old work.old).symbols (closing numbers.now buffers.old work.old).marks }
    ensures work { work.new ≡ work_after work.old (closing numbers.now buffers.old work.old).work_words (closing numbers.now buffers.old work.old).work_bytes }
    ensures report { report.new ≡ record_after report_values report.old (closing numbers.now buffers.old work.old).answer }
{
    let b = block_of(numbers);
    let told = closing::close(
        b,
        &mut *buffers.symbols,
        &mut *buffers.marks,
        &mut *work.words,
        &mut *work.bytes,
    );
    match told {
        Ok(r) => {
            *report = report_values(r);
            0
        }
        Err(refusal) => refusal.number(),
    }
}
