// Take.
ghost use Rattle.std.specs.Prelude.{◌≡◌, false, ◌<◌, ◌≤◌, ◌+◌, ◌*◌, length};
ghost use Rattle.ccsds.specs.Refusals.{answered, checked_as};
ghost use Rattle.unit_reader.specs.Reader.{extension_as, read_unit};
ghost use Rattle.ccsds.specs.inner.Compact.{Compact};
ghost use Rattle.block.specs.Block.{idle_at};
ghost use Rattle.block.specs.Take.{wrong_parameters, foreign, unit_refusal, admission, take_symbol, take_of, taken_as};
ghost use Rattle.block.specs.inner.Steps.{parts_as, admitted_as};

use crate::checks::BlockLayout;
use crate::status::Status;
use crate::{Block, status};
use ccsds::refusal::Refusal;
use ccsds::tables;
use unit_reader::{Parameters, UnitParts};

// What take did: the symbol is kept, or it was heard before.
#[derive(Clone, Copy, Debug, PartialEq, Eq)]
pub enum Taken {
    Kept,
    Repeated,
}

// An admitted unit's position, and where its symbol starts.
#[derive(Clone, Copy)]
struct Admitted {
    position: usize,
    start: usize,
}

// 8, foreign.
#[tactic(auto, unfolding(crate::specs::Take::foreign))]
fn is_foreign(b: Block, p: UnitParts) -> bool
    ensures { result ≡ foreign b (parts_as p) }
{
    p.lsc != b.lsc || p.protocol != b.protocol
}

impl BlockLayout {
    // 7, parameters.
    #[tactic(auto, unfolding(crate::specs::Take::wrong_parameters))]
    fn wrong_parameters(self, x: Option<Parameters>) -> bool
        ensures { result ≡ wrong_parameters self.block (extension_as x) }
    {
        let Some(p) = x else {
            return true;
        };
        let n = self.layout.k + self.layout.m;
        p.w != self.block.w || p.k != self.layout.k || p.n != n || p.seed != 0
    }

    // 7 to 10 or 14: of a unit of `len` bytes.
    fn check_unit(self, p: UnitParts, len: usize) -> Result<(), Refusal>
        requires { p.symbol ≤ len }
        ensures { checked_as result ≡ unit_refusal self.block (parts_as p) len }
    {
        let b = self.block;
        let l = self.layout;
        if self.wrong_parameters(p.coding) {
            return Err(Refusal::Parameters);
        }
        if is_foreign(b, p) {
            return Err(Refusal::Foreign);
        }
        if ccsds::checks::wrong_position(l.k + l.m, p.lwc) {
            return Err(Refusal::Position);
        }
        if ccsds::checks::idle_lwc(l.k, b.fill, p.lwc) {
            return Err(Refusal::Idle);
        }
        if len - p.symbol != b.w {
            return Err(Refusal::Symbol);
        }
        Ok(())
    }

    // Whether the block admits a unit that says p.
    fn admit_parts(self, p: UnitParts, unit: &[u8]) -> Result<Admitted, Refusal>
        requires { read_unit unit.now ≡ answered (parts_as p) }
        ensures { admitted_as unit.now result ≡ admission self.block unit.now }
    {
        self.check_unit(p, unit.len())?;
        Ok(Admitted {
            position: p.lwc - 1,
            start: unit.len() - self.block.w,
        })
    }

    // Whether the block admits a unit. One that is as the block's sender writes it is read the quick way.
    fn admit(self, unit: &[u8]) -> Result<Admitted, Refusal>
        requires { Compact self.block.w self.layout.k (self.layout.k + self.layout.m) × (self.block.protocol ≤ 7) }
        ensures { admitted_as unit.now result ≡ admission self.block unit.now }
    {
        let b = self.block;
        if let Some(p) = unit_claims::expected::read(self.layout, b.w, b.protocol, b.lsc, unit) {
            return self.admit_parts(p, unit);
        }
        let p = unit_reader::read_unit(unit)?;
        self.admit_parts(p, unit)
    }
}

// Takes an admitted unit's symbol, by the mark at its position, which is not idle.
fn take_symbol(
    b: Block,
    symbols: &mut [u8],
    marks: &mut [u8],
    position: usize,
    symbol: &[u8],
) -> Result<Taken, Refusal>
    requires position_in_bounds { (position < length marks.old) × (idle_at b position ≡ false) }
    requires w_in_bounds { position * b.w + b.w ≤ length symbols.old }
    requires symbol_len { length symbol.now ≡ b.w }
    ensures answer { taken_as result ≡ (take_symbol b symbols.old marks.old (record { position = position; symbol = symbol.now })).answer }
    ensures symbols { symbols.new ≡ (take_symbol b symbols.old marks.old (record { position = position; symbol = symbol.now })).symbols }
    ensures marks { marks.new ≡ (take_symbol b symbols.old marks.old (record { position = position; symbol = symbol.now })).marks }
{
    let w = b.w;
    let mark = marks[position];
    if status::wrong(mark) {
        return Err(Refusal::Mark);
    }
    let at = position * w;
    match status::of(mark) {
        Status::Heard => {
            if &symbols[at..at + w] == symbol {
                return Ok(Taken::Repeated);
            }
            Err(Refusal::Conflict)
        }
        Status::Missing => {
            marks[position] = status::HEARD;
            buffers::put_from(symbols, at, symbol, 0, w);
            Ok(Taken::Kept)
        }
    }
}

// Takes one unit: kept, repeated, or a refusal. Only a kept one changes the block.
pub fn take(b: Block, symbols: &mut [u8], marks: &mut [u8], unit: &[u8]) -> Result<Taken, Refusal>
    ensures answer { taken_as result ≡ (take_of b symbols.old marks.old unit.now).answer }
    ensures symbols { symbols.new ≡ (take_of b symbols.old marks.old unit.now).symbols }
    ensures marks { marks.new ≡ (take_of b symbols.old marks.old unit.now).marks }
{
    let l = BlockLayout {
        block: b,
        layout: tables::layout_of(b.code),
    };
    l.check_block(symbols.len(), marks.len())?;
    let x = l.admit(unit)?;
    take_symbol(b, symbols, marks, x.position, &unit[x.start..])
}
