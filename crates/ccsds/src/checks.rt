// Conditions of refusals, and parts of the table of refusals, that more than one call tests.
ghost use Rattle.std.specs.Prelude.{◌≡◌};
ghost use Rattle.ccsds.specs.Tables.{code_of};
ghost use Rattle.ccsds.specs.Fill.{wrong_fill, idle_lwc};
ghost use Rattle.ccsds.specs.Refusals.{checked_as, first_of, code_conditions, record_conditions, encoder_conditions, wrong_label, wrong_position};

use crate::code::Code;
use crate::refusal::Refusal;
use crate::tables;
use crate::tables::CodeLayout;

pub fn wrong_label(protocol: usize, lsc: usize) -> bool
    ensures { result ≡ wrong_label protocol lsc }
{
    lsc == 0 || lsc > 65534 || protocol > 7
}

// Of k.
pub fn wrong_fill(k: usize, fill: usize) -> bool
    ensures { result ≡ wrong_fill k fill }
{
    fill == 0 || fill > k
}

// Of n.
pub fn wrong_position(n: usize, lwc: usize) -> bool
    ensures { result ≡ wrong_position n lwc }
{
    lwc == 0 || lwc > n
}

// Of k: LWC fill + 1 to k.
pub fn idle_lwc(k: usize, fill: usize, lwc: usize) -> bool
    ensures { result ≡ idle_lwc k fill lwc }
{
    if lwc > k {
        return false;
    }
    if fill == 0 {
        return k > 0;
    }
    fill < lwc
}

// 1 or 2.
pub fn check_code(number: usize, w: usize) -> Result<(), Refusal>
    ensures { checked_as result ≡ first_of (code_conditions number w) }
{
    let code = Code { number };
    if !code.known() {
        return Err(Refusal::Code);
    }
    if Code::wrong_width(w) {
        return Err(Refusal::Width);
    }
    Ok(())
}

// 1, 2, 3 or 13: of a block's record and its code's numbers.
pub fn check_record(
    code: CodeLayout,
    w: usize,
    protocol: usize,
    lsc: usize,
    fill: usize,
) -> Result<(), Refusal>
    ensures { checked_as result ≡ first_of (record_conditions code.number w protocol lsc fill) }
{
    if !code.is_code() {
        return Err(Refusal::Code);
    }
    if Code::wrong_width(w) {
        return Err(Refusal::Width);
    }
    if wrong_label(protocol, lsc) {
        return Err(Refusal::Label);
    }
    if wrong_fill(code.layout.k, fill) {
        return Err(Refusal::Fill);
    }
    Ok(())
}

// 1, 2, 13 or 4: of a fill and the lengths of the encoder's two buffers.
pub fn check_encoder(
    number: usize,
    w: usize,
    fill: usize,
    info_len: usize,
    parity_len: usize,
) -> Result<(), Refusal>
    ensures { checked_as result ≡ first_of (encoder_conditions number w fill info_len parity_len) }
{
    check_code(number, w)?;
    let layout = tables::layout_of(number);
    let parity_size = layout.m * w;
    if wrong_fill(layout.k, fill) {
        return Err(Refusal::Fill);
    }
    if info_len != fill * w {
        return Err(Refusal::Length);
    }
    if parity_len != parity_size {
        return Err(Refusal::Length);
    }
    Ok(())
}
