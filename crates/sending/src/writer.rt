// The unit writer.
ghost use Rattle.std.specs.Prelude.{◌≡◌, ◌+◌, ◌<◌, ◌≤◌, length};
ghost use Rattle.ccsds.specs.Tables.{code_of};
ghost use Rattle.ccsds.specs.Refusals.{checked_as, first_of, outcome, afterwards};
ghost use Rattle.ccsds.specs.Units.{header_of, value_bytes, extension_of, unit_of};
ghost use Rattle.sending.specs.Writer.{unit_conditions, write_refusal, written_as};
ghost use Rattle.wire.specs.inner.Appended.{Appended};
ghost use Rattle.ccsds.specs.Codes.{n_of};

use ccsds::refusal::Refusal;
use ccsds::tables::CodeLayout;
use ccsds::unit_size::Coding;
use ccsds::{checks, tables};
use wire::{copy, put};

// 4, 9, 14 or 10: for a record that is not refused.
fn check_unit(
    number: usize,
    c: Coding,
    fill: usize,
    lwc: usize,
    symbol_len: usize,
    out_len: usize,
) -> Result<(), Refusal>
    requires { (c.k ≡ (code_of number).k) × (c.n ≡ n_of (code_of number)) }
    ensures { checked_as result ≡ first_of (unit_conditions number c.w fill lwc symbol_len out_len) }
{
    if out_len != c.unit_length() {
        return Err(Refusal::Length);
    }
    if checks::wrong_position(c.n, lwc) {
        return Err(Refusal::Position);
    }
    if checks::idle_lwc(c.k, fill, lwc) {
        return Err(Refusal::Idle);
    }
    if symbol_len != c.w {
        return Err(Refusal::Symbol);
    }
    Ok(())
}

#[tactic(auto, using(wire::proofs::AppendedLaws::then_appended), unfolding(ccsds::specs::Units::header_of))]
fn put_header(out: &mut [u8], protocol: usize, lsc: usize, lwc: usize) -> usize
    requires { (6 ≤ length out.old) × (protocol < 8) × (lsc < 65536) × (lwc < 65536) }
    ensures { Appended out.old out.new 0 result (header_of protocol lsc lwc) }
{
    let a = put::byte(out, 0, 16 + protocol * 2);
    let b = put::byte(out, a, 1);
    let c = put::pair(out, b, lwc);
    put::pair(out, c, lsc)
}

fn put_value(out: &mut [u8], at: usize, c: Coding) -> usize
    requires { at + length (value_bytes c.w c.k c.n) ≤ length out.old }
    ensures { Appended out.old out.new at result (value_bytes c.w c.k c.n) }
{
    let a = put::sdnv(out, at, c.w);
    let b = put::sdnv_2(out, a, c.k);
    let d = put::sdnv_2(out, b, c.n);
    put::byte(out, d, 0)
}

fn put_extension(out: &mut [u8], at: usize, c: Coding) -> usize
    requires { at + length (extension_of c.w c.k c.n) ≤ length out.old }
    ensures { Appended out.old out.new at result (extension_of c.w c.k c.n) }
{
    let a = put::byte(out, at, 1);
    let b = put::sdnv(out, a, c.value_bytes());
    put_value(out, b, c)
}

// Writes the unit of one symbol into an output of exactly its length; or a refusal, which changes nothing.
pub fn write(
    code: usize,
    w: usize,
    protocol: usize,
    lsc: usize,
    fill: usize,
    lwc: usize,
    symbol: &[u8],
    out: &mut [u8],
) -> Result<(), Refusal>
    ensures answer { written_as result ≡ outcome (write_refusal code w protocol lsc fill lwc (length symbol.now) (length out.old)) tt }
    ensures output { out.new ≡ afterwards (write_refusal code w protocol lsc fill lwc (length symbol.now) (length out.old)) (unit_of (code_of code) w protocol lsc lwc symbol.now) out.old }
{
    let l = tables::layout_of(code);
    let number = CodeLayout {
        number: code,
        layout: l,
    };
    // no `?`: rust/tests/write_without_array.rs follows no function of Rattle's core
    if let Err(refusal) = checks::check_record(number, w, protocol, lsc, fill) {
        return Err(refusal);
    }
    let c = Coding {
        w,
        k: l.k,
        n: l.k + l.m,
    };
    if let Err(refusal) = check_unit(code, c, fill, lwc, symbol.len(), out.len()) {
        return Err(refusal);
    }
    let a = put_header(out, protocol, lsc, lwc);
    let b = put_extension(out, a, c);
    copy::symbol(out, b, symbol);
    Ok(())
}
