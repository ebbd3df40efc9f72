// Writes the rows of a tile.
ghost use Rattle.std.specs.Prelude.{◌≡◌, ◌+◌, ◌-◌, ◌*◌, ◌<◌, ◌≤◌, length, replicate};
ghost use Rattle.wire.specs.inner.Appended.{Appended};
ghost use Rattle.tiles.specs.Rows.{room_of, row_bytes, joined};
ghost use Rattle.tiles.specs.Pack.{rows_of, tile_rows};
ghost use Rattle.tiles.specs.inner.Steps.{Wide, next_after};

use wire::{copy, put};

// A width that has room for tile bytes.
#[derive(Clone, Copy)]
pub struct Width {
    pub w: usize,
    ghost wide: { Wide w },
}

// A row's LWC, and the position of its first byte.
#[derive(Clone, Copy)]
pub struct Place {
    pub lwc: usize,
    pub at: usize,
}

// Zeros from position `at` up to `end`. Not by `fill`, which puts the last byte on its own: with it packing short tiles at W 64 is 5 % slower.
pub fn put_zeros(out: &mut [u8], at: usize, end: usize)
    requires { (at ≤ end) × (end ≤ length out.old) }
    ensures { Appended out.old out.new at end (replicate (end - at) 0) }
{
    for b in out[at..end].iter_mut() {
        *b = 0;
    }
}

// Puts tile bytes into a row. Not by wire::copy::symbol: that tests for more than 32 bytes first, with which W 16 is a tenth slower.
fn copy_part(out: &mut [u8], at: usize, part: &[u8]) -> usize
    requires { (0 < length part.now) × (at + length part.now ≤ length out.old) }
    ensures { Appended out.old out.new at result part.now }
{
    if part.len() < 16 {
        return copy::copy_few(out, at, part);
    }
    copy::copy_many(out, at, part)
}

// next of a row with this LWC, where so many bytes of its tile are left after it.
fn next_of(lwc: usize, left: usize) -> usize
    requires { lwc < 65536 }
    ensures { result ≡ next_after lwc left }
{
    if left == 0 { 0 } else { lwc + 1 }
}

impl Width {
    // A row with these tile bytes.
    fn put_row(self, next: usize, part: &[u8], out: &mut [u8], at: usize) -> usize
        requires next { next < 65536 }
        requires part { (0 < length part.now) × (length part.now ≤ room_of self.w) }
        requires room { at + self.w ≤ length out.old }
        ensures { Appended out.old out.new at result (row_bytes self.w next part.now) }
    {
        let count = put::pair(out, at, next);
        let from = put::pair(out, count, part.len());
        let to = copy_part(out, from, part);
        let end = at + self.w;
        put_zeros(out, to, end);
        end
    }

    // The rows of a tile. Returns the place of the row after them. Not a loop over chunks: a chunk doesn't tell whether others follow.
    pub fn put_tile(self, tile: &[u8], out: &mut [u8], p: Place) -> Place
        requires lwcs { p.lwc + rows_of (room_of self.w) (length tile.now) ≤ 65535 }
        requires room { p.at + rows_of (room_of self.w) (length tile.now) * self.w ≤ length out.old }
        ensures lwc { result.lwc ≡ p.lwc + rows_of (room_of self.w) (length tile.now) }
        ensures rows { Appended out.old out.new p.at result.at (joined (tile_rows self.w p.lwc (rows_of (room_of self.w) (length tile.now)) tile.now)) }
    {
        let room = self.w - 4;
        let mut lwc = p.lwc;
        let mut at = p.at;
        let mut left = tile;
        // chunks would not tell whether another row follows
        while !left.is_empty() {
            let (part, rest) = left.split_at(room.min(left.len()));
            let next = next_of(lwc, rest.len());
            at = self.put_row(next, part, out, at);
            lwc += 1;
            left = rest;
        }
        Place { lwc, at }
    }
}
