// The lengths of tiles: the rows that they need, and whether they are those of the bytes.
ghost use Rattle.std.specs.Prelude.{◌≡◌, ◌<◌};
ghost use Rattle.tiles.specs.Pack.{rows_of, rows_needed, capped, rows_told, wrong_tiles};

use crate::checks;
use ccsds::code::Code;

// The rows of a tile of len bytes.
fn rows_of(room: usize, len: usize) -> usize
    requires { 0 < room }
    ensures { result ≡ rows_of room len }
{
    len.div_ceil(room)
}

// The rows of tiles of these lengths; the largest number, if they are more.
pub fn sum_rows(room: usize, lengths: &[usize]) -> usize
    requires { 0 < room }
    ensures { result ≡ capped (rows_needed room lengths.now) }
{
    let mut sum: usize = 0;
    for len in lengths {
        sum = sum.saturating_add(rows_of(room, *len));
    }
    sum
}

// 16, tiles. No sum is made, so none wraps.
pub fn wrong_tiles(lengths: &[usize], bytes: usize) -> bool
    ensures { result ≡ wrong_tiles lengths.now bytes }
{
    let mut left = bytes;
    for len in lengths {
        let len = *len;
        if len == 0 || len > left {
            return true;
        }
        left -= len;
    }
    left != 0
}

// For planners: how many rows tiles of these lengths need. 0 for a width that pack refuses; the largest number, if they are more.
pub fn rows_needed(w: usize, lengths: &[usize]) -> usize
    ensures { result ≡ rows_told w lengths.now }
{
    if Code::wrong_width(w) || checks::is_narrow(w) {
        return 0;
    }
    sum_rows(w - 4, lengths)
}
