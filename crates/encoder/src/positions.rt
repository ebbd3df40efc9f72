// The positions of a check row. An address belongs to the check rows of one remainder modulo a, its class: the table is laid out by class
// once, and then the information positions of each check row follow by one addition each. Internal: the crates of this repository call what
// is here, and a user of the layer has no need to.
ghost use Rattle.std.specs.Prelude.{◌≡◌, ℕ, ◌+◌, ◌-◌, ◌*◌, ◌/◌, ◌%◌, ◌<◌, ◌≤◌, [], length, slice_index, slice_index_or};
ghost use Rattle.ccsds.specs.Tables.{code_of, Known};
ghost use Rattle.ccsds.specs.inner.Layout.{LayoutOf, FrontIs, joined, max_n, max_m, max_rows, max_degree, max_addresses};
ghost use Rattle.encoder.specs.inner.Positions.{entered, row_entered, Classes, WithinRow, checks, Shaped, Whole, Counted, Table, Entries, Kept, Information, RowOf, max_classes, no_entries};
ghost use Rattle.symbol_sums.specs.Gather.{max_positions};

use ccsds::tables;
use ccsds::tables::{CodeLayout, Layout, MAX_ADDRESSES, MAX_DEGREE};
use symbol_sums::MAX_POSITIONS;

// The most classes of a code.
pub const MAX_CLASSES: usize = 8;

// Places for the entries of all classes, MAX_POSITIONS a class.
const MAX_ENTRIES: usize = MAX_CLASSES * MAX_POSITIONS;

// The table by class.
#[derive(Drop)]
pub struct ClassTable {
    // Where the positions of each entry start, and where they end: two arrays, of which vector instructions take eight places at a time.
    pub starts: [u16; MAX_ENTRIES],
    pub ends: [u16; MAX_ENTRIES],
    // How many entries each class has.
    pub counts: [u16; MAX_CLASSES],
    // How many of these are of table rows that end by fill, so that none of their positions is idle.
    pub whole: [u16; MAX_CLASSES],
    // The addresses as they stand in the standard's table, MAX_DEGREE places a row.
    pub addresses: [u16; MAX_ADDRESSES],
}

impl ClassTable {
    // Before any entry.
    pub fn new() -> ClassTable
        ensures { result ≡ no_entries }
    {
        ClassTable {
            starts: [0; MAX_ENTRIES],
            ends: [0; MAX_ENTRIES],
            counts: [0; MAX_CLASSES],
            whole: [0; MAX_CLASSES],
            addresses: [0; MAX_ADDRESSES],
        }
    }

    // Enters address y, which stands at place i of a table row, into its class.
    fn enter(&mut self, q: usize, a: usize, row: usize, i: usize, y: usize)
        requires a_nonzero { (0 < a) × (a ≤ max_classes) × (row * q + q ≤ max_n) × (y / a ≤ q) × (y < 65536) }
        requires row_lt_max_rows { (row < max_rows) × (i < max_degree) }
        ensures { self.new ≡ entered q a row i y self.old }
    {
        let (d, r) = divided(y, a);
        self.addresses[row * MAX_DEGREE + i] = y as u16;
        let n = usize::from(self.counts[r]);
        if n >= MAX_POSITIONS {
            return;
        }
        let end = row * q + q;
        self.starts[r * MAX_POSITIONS + n] = (end - d) as u16;
        self.ends[r * MAX_POSITIONS + n] = end as u16;
        self.counts[r] = (n + 1) as u16;
    }

    // Those of one table row.
    fn enter_row(&mut self, s: Shape, flat: &[u16; MAX_ADDRESSES], row: usize)
        requires shaped { Shaped s × FrontIs (joined (code_of s.number).rows) flat.now }
        requires row_in_bounds { row < length (code_of s.number).rows }
        ensures { self.new ≡ row_entered (code_of s.number) row (length (slice_index_or (code_of s.number).rows row [])) self.old }
    {
        let l = s.layout;
        let code = CodeLayout {
            number: s.number,
            layout: l,
        };
        for (i, y) in code.row(flat, row).iter().enumerate() {
            self.enter(l.q, l.a, row, i, usize::from(*y));
        }
    }

    // Enters the table rows that have a position that is sent.
    fn enter_rows(&mut self, s: Shape)
        requires shaped { Shaped s × (self.old ≡ no_entries) }
        ensures { Classes (code_of s.number) s.rows self.new }
    {
        let mut flat = [0u16; MAX_ADDRESSES];
        tables::put_addresses(s.number, &mut flat);
        for row in 0..s.rows {
            self.enter_row(s, &flat, row);
        }
    }

    // Notes how many entries of class r come before the last table row: asked once, and not for each check row.
    fn count_whole(&mut self, s: Shape, r: usize)
        requires { Counted s r self.old × (r < (code_of s.number).a) }
        ensures { Counted s (r + 1) self.new }
    {
        let n = usize::from(self.counts[r]);
        let e = before_last_row(s.fill, &self.ends, r, n);
        self.whole[r] = e as u16;
    }
}

// The shape of a block: its code's number and layout, the bytes of a symbol, its fill, and how many table rows have a position that is sent.
#[derive(Clone, Copy)]
pub struct Shape {
    pub number: usize,
    pub layout: Layout,
    pub w: usize,
    pub fill: usize,
    pub rows: usize,
}

// The check rows of a block: its shape, and the table by class, laid out as far as positions are sent. The table is lent: an array that moved
// with it would be copied, on a stack that has no room for two.
#[derive(Clone, Copy)]
pub struct CheckRows<'a> {
    pub shape: Shape,
    pub table: &'a ClassTable,
    pub ghost laid: { Table shape table.now },
}

impl CheckRows<'_> {
    // The positions of check row i * a + r in the table rows that are laid out, at the front of xs; answers how many. Whole groups of 16 are made,
    // whatever lies behind the entries: the vector instructions that this is compiled to then have no rest, which would be a branch that can't be
    // foreseen.
    fn entries(&self, i: usize, r: usize, xs: &mut [u16; MAX_POSITIONS]) -> usize
        requires r_bound { (r < (code_of self.now.shape.number).a) × (i < (code_of self.now.shape.number).q) }
        ensures { Entries (code_of self.now.shape.number) self.now.shape.rows (i * (code_of self.now.shape.number).a + r) result xs.new }
    {
        let table = self.table;
        let n = usize::from(table.counts[r]);
        let full = (n + 15) / 16 * 16;
        let q = self.shape.layout.q as u16;
        for e in 0..full {
            xs[e] = further(
                table.starts[r * MAX_POSITIONS + e],
                table.ends[r * MAX_POSITIONS + e],
                q,
                i as u16,
            );
        }
        n
    }

    // The information positions of check row i * a + r that are sent, at the front of xs; answers how many. Only of the last table row may some be
    // idle, and its entries are the last of a class.
    fn sent(&self, i: usize, r: usize, xs: &mut [u16; MAX_POSITIONS]) -> usize
        requires r_bound { (r < (code_of self.now.shape.number).a) × (i < (code_of self.now.shape.number).q) }
        ensures { Information (code_of self.now.shape.number) self.now.shape.fill (i * (code_of self.now.shape.number).a + r) result xs.new }
    {
        let n = self.entries(i, r, xs);
        keep_sent(self.shape.fill, usize::from(self.table.whole[r]), n, xs)
    }

    // The same for the encoder. Where the fill ends with a table row nothing is idle: a test that is the same for all check rows, so that the
    // encoder's loop over them is compiled for each of its answers.
    pub fn information(&self, i: usize, r: usize, xs: &mut [u16; MAX_POSITIONS]) -> usize
        requires r_bound { (r < (code_of self.now.shape.number).a) × (i < (code_of self.now.shape.number).q) }
        ensures { Information (code_of self.now.shape.number) self.now.shape.fill (i * (code_of self.now.shape.number).a + r) result xs.new }
    {
        let s = self.shape;
        if s.rows * s.layout.q == s.fill {
            return self.entries(i, r, xs);
        }
        self.sent(i, r, xs)
    }

    // All positions of check row j that are sent, at the front of xs; answers how many. The last two, or the last where j is 0, are those of the
    // parity symbols.
    // A count and no slice: RowOf speaks of an array and a count, and peeling takes a position out of the array.
    pub fn of_row(&self, j: usize, xs: &mut [u16; MAX_POSITIONS]) -> usize
        requires j_bound { j < (code_of self.now.shape.number).m }
        ensures { RowOf (checks self.now.shape) j result xs.new }
    {
        let l = self.shape.layout;
        let (i, r) = divided(j, l.a);
        let n = self.sent(i, r, xs);
        xs[n] = (l.k + j) as u16;
        if j == 0 {
            return n + 1;
        }
        xs[n + 1] = (l.k + j - 1) as u16;
        n + 2
    }
}

// How many table rows of q positions have one below fill.
fn rows_to(fill: usize, q: usize) -> usize
    requires { (fill ≤ max_n) × (0 < q) × (q ≤ max_m) }
    ensures { (fill ≤ result * q) × (result * q < fill + q) }
{
    (fill + q - 1) / q
}

// y / a and y % a. Every code has a = MAX_CLASSES, and a division by a constant is a shift.
fn divided(y: usize, a: usize) -> (usize, usize)
    requires { 0 < a }
    ensures quotient { result.0 ≡ y / a }
    ensures remainder { result.1 ≡ y % a }
    ensures below { result.1 < a }
{
    if a == MAX_CLASSES {
        (y / MAX_CLASSES, y % MAX_CLASSES)
    } else {
        (y / a, y % a)
    }
}

// How many of the first n entries of class r come before the last table row, if that goes beyond fill.
fn before_last_row(fill: usize, ends: &[u16; MAX_ENTRIES], r: usize, n: usize) -> usize
    requires { (r < max_classes) × (n ≤ max_positions) }
    ensures { Whole fill r n ends.now result }
{
    for e in (0..n).rev() {
        if usize::from(ends[r * MAX_POSITIONS + e]) <= fill {
            return e + 1;
        }
    }
    0
}

// Lays out the table of a code, as far as positions are sent: the first `fill` information symbols, and all parity symbols. Answers the block's shape.
pub fn lay(number: usize, w: usize, fill: usize, table: &mut ClassTable) -> Shape
    requires known { Known number × (fill ≤ (code_of number).k) }
    requires blank { table.old ≡ no_entries }
    ensures laid { Table result table.new }
    ensures numbers { (result.number ≡ number) × (result.w ≡ w) × (result.fill ≡ fill) }
{
    let layout = tables::layout_of(number);
    let s = Shape {
        number,
        layout,
        w,
        fill,
        rows: rows_to(fill, layout.q),
    };
    table.enter_rows(s);
    for r in 0..layout.a {
        table.count_whole(s, r);
    }
    s
}

// A position i steps further in its table row, which ends at `end`; after the last position comes the first. Any numbers will do, so that it
// can also be asked of places behind a class's entries.
fn further(first: u16, end: u16, q: u16, i: u16) -> u16
    ensures { WithinRow first end q i → result ≡ end - q + (first + q - end + i) % q }
{
    let x = first.wrapping_add(i);
    if x < end { x } else { x.wrapping_sub(q) }
}

// Of the n positions at the front of xs, those below fill, without gaps; answers how many. Those before `from` are below it.
fn keep_sent(fill: usize, from: usize, n: usize, xs: &mut [u16; MAX_POSITIONS]) -> usize
    requires from_le_n { (from ≤ n) × (n ≤ max_positions) }
    requires by_index { (i : ℕ) → i < from → slice_index xs.old i < fill }
    ensures { Kept fill n xs.old result xs.new }
{
    let mut kept = from;
    for e in from..n {
        let x = xs[e];
        xs[kept] = x;
        kept += usize::from((x as usize) < fill);
    }
    kept
}
