// The encoder: parity bytes from information bytes.
ghost use Rattle.std.specs.Prelude.{◌≡◌, ◌+◌, ◌*◌, ◌<◌, length};
ghost use Rattle.ccsds.specs.Tables.{code_of};
ghost use Rattle.ccsds.specs.Refusals.{outcome, afterwards};
ghost use Rattle.encoder.specs.Encode.{encode_refusal, parity_of, encoded_as};
ghost use Rattle.encoder.specs.inner.Steps.{Sized, Done};
ghost use Rattle.symbol_sums.specs.Gather.{max_positions};

use crate::positions;
use crate::positions::{CheckRows, ClassTable};
use ccsds::checks;
use ccsds::refusal::Refusal;
use symbol_sums::MAX_POSITIONS;

// Parity symbol i * a + r.
fn put_row(
    rows: &CheckRows,
    i: usize,
    r: usize,
    xs: &mut [u16; MAX_POSITIONS],
    info: &[u8],
    parity: &mut [u8],
)
    requires i_bound { (i < (code_of rows.now.shape.number).q) × (r < (code_of rows.now.shape.number).a) }
    requires info_len { (length info.now ≡ rows.now.shape.fill * rows.now.shape.w) × Done (code_of rows.now.shape.number) rows.now.shape.w info.now (i * (code_of rows.now.shape.number).a + r) parity.old }
    ensures { (length xs.new ≡ max_positions) × Done (code_of rows.now.shape.number) rows.now.shape.w info.now (i * (code_of rows.now.shape.number).a + r + 1) parity.new }
{
    let j = i * rows.shape.layout.a + r;
    let n = rows.information(i, r, xs);
    symbol_sums::put_sum(rows.shape.w, j, j.checked_sub(1), &xs[..n], info, parity);
}

// Parity symbols i * a to i * a + a - 1.
fn put_rows(
    rows: &CheckRows,
    i: usize,
    xs: &mut [u16; MAX_POSITIONS],
    info: &[u8],
    parity: &mut [u8],
)
    requires i_bound { i < (code_of rows.now.shape.number).q }
    requires info_len { (length info.now ≡ rows.now.shape.fill * rows.now.shape.w) × Done (code_of rows.now.shape.number) rows.now.shape.w info.now (i * (code_of rows.now.shape.number).a) parity.old }
    ensures { (length xs.new ≡ max_positions) × Done (code_of rows.now.shape.number) rows.now.shape.w info.now (i * (code_of rows.now.shape.number).a + (code_of rows.now.shape.number).a) parity.new }
{
    for r in 0..rows.shape.layout.a {
        put_row(rows, i, r, xs, info, parity);
    }
}

// Encodes into buffers of the right sizes.
fn encode_sized(rows: &CheckRows, info: &[u8], parity: &mut [u8])
    requires some { 0 < rows.now.shape.w }
    requires sized { Sized (code_of rows.now.shape.number) rows.now.shape.w rows.now.shape.fill (length info.now) (length parity.old) }
    ensures { parity.new ≡ parity_of (code_of rows.now.shape.number) rows.now.shape.w rows.now.shape.fill info.now }
{
    let mut xs = [0u16; MAX_POSITIONS];
    for i in 0..rows.shape.layout.q {
        put_rows(rows, i, &mut xs, info, parity);
    }
}

// The parity bytes of the fill * w information bytes, into a buffer of m * w bytes; or a refusal, which changes nothing.
pub fn encode(
    code: usize,
    w: usize,
    fill: usize,
    info: &[u8],
    parity: &mut [u8],
) -> Result<(), Refusal>
    ensures answer { encoded_as result ≡ outcome (encode_refusal code w fill (length info.now) (length parity.old)) tt }
    ensures parity { parity.new ≡ afterwards (encode_refusal code w fill (length info.now) (length parity.old)) (parity_of (code_of code) w fill info.now) parity.old }
{
    checks::check_encoder(code, w, fill, info.len(), parity.len())?;
    let mut table = ClassTable::new();
    let shape = positions::lay(code, w, fill, &mut table);
    let rows = CheckRows {
        shape,
        table: &table,
    };
    encode_sized(&rows, info, parity);
    Ok(())
}
