// Packs tiles into rows.
ghost use Rattle.std.specs.Prelude.{◌≡◌, length};
ghost use Rattle.wire.specs.inner.Appended.{Appended};
ghost use Rattle.ccsds.specs.Refusals.{checked_as, outcome, afterwards};
ghost use Rattle.tiles.specs.Rows.{joined};
ghost use Rattle.tiles.specs.Pack.{tiles_rows, pack_of, pack_refusal, packed_as};
ghost use Rattle.tiles.specs.inner.Steps.{Fitting};

use crate::rows::{Place, Width};
use crate::{checks, lengths, rows};
use ccsds::refusal::Refusal;

fn check_pack(
    number: usize,
    w: usize,
    fill: usize,
    bytes: usize,
    lens: &[usize],
    out_len: usize,
) -> Result<(), Refusal>
    ensures { checked_as result ≡ pack_refusal number w fill bytes lens.now out_len }
{
    checks::check_rows(number, w, fill)?;
    if out_len != fill * w {
        return Err(Refusal::Length);
    }
    if lengths::wrong_tiles(lens, bytes) {
        return Err(Refusal::Tiles);
    }
    if lengths::sum_rows(w - 4, lens) > fill {
        return Err(Refusal::Overfull);
    }
    Ok(())
}

// The rows of all tiles. Returns the position after them.
fn put_tiles(width: Width, bytes: &[u8], lens: &[usize], out: &mut [u8]) -> usize
    requires { Fitting width.w (length bytes.now) lens.now (length out.old) }
    ensures { Appended out.old out.new 0 result (joined (tiles_rows width.w 1 bytes.now lens.now)) }
{
    let mut p = Place { lwc: 1, at: 0 };
    let mut left = bytes;
    for len in lens {
        let (tile, rest) = left.split_at(*len);
        p = width.put_tile(tile, out, p);
        left = rest;
    }
    p.at
}

// Packs tiles, given by their joined bytes and their lengths, into an output of fill * w bytes; or a refusal, which changes nothing.
pub fn pack(
    code: usize,
    w: usize,
    fill: usize,
    bytes: &[u8],
    lengths: &[usize],
    out: &mut [u8],
) -> Result<(), Refusal>
    ensures answer { packed_as result ≡ outcome (pack_refusal code w fill (length bytes.now) lengths.now (length out.old)) tt }
    ensures output { out.new ≡ afterwards (pack_refusal code w fill (length bytes.now) lengths.now (length out.old)) (pack_of w fill bytes.now lengths.now) out.old }
{
    check_pack(code, w, fill, bytes.len(), lengths, out.len())?;
    let end = put_tiles(Width { w }, bytes, lengths, out);
    let size = out.len();
    rows::put_zeros(out, end, size);
    Ok(())
}
