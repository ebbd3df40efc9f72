// Show: the symbol of an LWC in the encoder's two buffers.
ghost use Rattle.std.specs.Prelude.{◌≡◌};
ghost use Rattle.ccsds.specs.Refusals.{checked_as};
ghost use Rattle.sending.specs.Show.{slice_as, show_refusal, show_of};

use ccsds::checks;
use ccsds::code::Code;
use ccsds::refusal::Refusal;

// The refusal for which the empty part is shown.
fn check_show(
    number: usize,
    w: usize,
    fill: usize,
    info_len: usize,
    parity_len: usize,
    lwc: usize,
) -> Result<(), Refusal>
    ensures { checked_as result ≡ show_refusal number w fill info_len parity_len lwc }
{
    checks::check_encoder(number, w, fill, info_len, parity_len)?;
    let code = Code { number };
    if code.wrong_position(lwc) {
        return Err(Refusal::Position);
    }
    if checks::idle_lwc(code.k(), fill, lwc) {
        return Err(Refusal::Idle);
    }
    Ok(())
}

// The symbol as a part of the information or of the parity; or the empty part at the start of the information.
pub fn show<'a>(
    code: usize,
    w: usize,
    fill: usize,
    info: &'a [u8],
    parity: &'a [u8],
    lwc: usize,
) -> &'a [u8]
    ensures { slice_as result ≡ show_of code w fill info.entry parity.entry lwc }
{
    if check_show(code, w, fill, info.len(), parity.len(), lwc).is_err() {
        return &info[..0];
    }
    let c = Code { number: code };
    let k = c.k();
    let i = lwc - 1;
    if i < k {
        let a = i * w;
        &info[a..a + w]
    } else {
        let a = (i - k) * w;
        &parity[a..a + w]
    }
}
