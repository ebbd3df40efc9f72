// Which check rows to look at. Nothing is proved of the hints but that they stay in their arrays: a row that they name is looked at before it is
// used.
ghost use Rattle.std.specs.Prelude.{◌≡◌, ◌/◌, ◌<◌, ◌≤◌, length};
ghost use Rattle.ccsds.specs.inner.Layout.{max_n, max_m, max_rows, max_degree};

use crate::states::KNOWN;
use ccsds::code::Code;
use ccsds::tables::{Layout, MAX_ADDRESSES, MAX_DEGREE};
use encoder::positions::CheckRows;

// The words of the rows that are ready, 64 to a word.
const READY: usize = Code::MAX_M / 64;

// How many open symbols each row has, and a bit for each row that had just one and is still to be tried.
#[derive(Drop)]
pub struct Hints {
    counts: [u8; Code::MAX_M],
    ready: [u64; READY],
    ghost counts_len: { length counts ≡ max_m },
    ghost ready_len: { length ready ≡ max_m / 64 },
}

// y + o modulo m, where both are below m.
fn shifted(y: u16, o: u16, m: u16) -> u16 {
    let j = y.wrapping_add(o);
    if j < m { j } else { j.wrapping_sub(m) }
}

// The check rows of an information position, which stands o check rows further than the first of its table row. All places of the row are
// made, whatever lies behind its addresses: this is compiled to a few vector instructions.
fn shifted_row(
    m: u16,
    addresses: &[u16; MAX_ADDRESSES],
    row: usize,
    o: u16,
    js: &mut [u16; MAX_DEGREE],
)
    requires { row < max_rows }
    ensures { length js.new ≡ max_degree }
{
    let at = row * MAX_DEGREE;
    for (i, j) in js.iter_mut().enumerate() {
        *j = shifted(addresses[at + i], o, m);
    }
}

// How many addresses a table row has.
fn degree(l: Layout, row: usize) -> usize
    requires { (l.degree ≤ max_degree) × (l.rest ≤ max_degree) }
    ensures { result ≤ max_degree }
{
    if row < l.long { l.degree } else { l.rest }
}

// The check rows of position x, at the front of js. Inlined, so that js is the caller's own: only then is shifted_row compiled to vector instructions.
#[inline(always)]
fn column<'a>(rows: &CheckRows, x: usize, js: &'a mut [u16; MAX_DEGREE]) -> &'a [u16]
    requires { x < 65535 }
    ensures { length result.now ≤ max_degree }
{
    let l = rows.shape.layout;
    if x >= l.k {
        let t = x - l.k;
        js[0] = t as u16;
        js[1] = (t + 1) as u16;
        return if t + 1 == l.m { &js[..1] } else { &js[..2] };
    }
    let row = x / l.q;
    shifted_row(
        l.m as u16,
        &rows.table.addresses,
        row,
        (x % l.q * l.a) as u16,
        js,
    );
    &js[..degree(l, row)]
}

// Position x is open: its check rows have one more.
fn open_column(rows: &CheckRows, x: usize, counts: &mut [u8; Code::MAX_M])
    requires { x < 65535 }
    ensures { length counts.new ≡ max_m }
{
    let mut js = [0u16; MAX_DEGREE];
    for &j in column(rows, x, &mut js) {
        let c = &mut counts[usize::from(j) % Code::MAX_M];
        *c = c.saturating_add(1);
    }
}

// Row j is ready, if it is so.
fn set_ready(ready: &mut [u64; READY], j: usize, is: bool)
    ensures { length ready.new ≡ max_m / 64 }
{
    ready[j / 64 % READY] |= u64::from(is) << (j % 64);
}

impl Hints {
    // No position is open, and no row is ready.
    pub fn new() -> Self {
        Hints {
            counts: [0; Code::MAX_M],
            ready: [0; READY],
        }
    }

    // Each missing position is open. Not part of new: hints that were filled before they are returned would be copied by memcpy, which nothing else in
    // the archive needs (tests/header/symbols.sh).
    pub fn open(&mut self, rows: &CheckRows, states: &[u8])
        requires { length states.now ≤ max_n }
    {
        let rows = *rows;
        for (x, &state) in states.iter().enumerate() {
            if state != KNOWN {
                open_column(&rows, x, &mut self.counts);
            }
        }
        for j in 0..rows.shape.layout.m {
            set_ready(&mut self.ready, j, self.counts[j] == 1);
        }
    }

    // Position x is no longer open: its check rows have one less.
    pub fn close(&mut self, rows: &CheckRows, x: usize)
        requires { x < 65535 }
    {
        let mut js = [0u16; MAX_DEGREE];
        for &j in column(rows, x, &mut js) {
            let j = usize::from(j) % Code::MAX_M;
            let c = self.counts[j];
            self.counts[j] = c.saturating_sub(1);
            set_ready(&mut self.ready, j, c == 2);
        }
    }

    // The lowest row that is ready, which then is not any more.
    pub fn next(&mut self) -> Option<usize> {
        for (i, v) in self.ready.iter_mut().enumerate() {
            if *v != 0 {
                let bit = v.trailing_zeros() as usize;
                *v &= *v - 1;
                return Some(i * 64 + bit);
            }
        }
        None
    }
}
