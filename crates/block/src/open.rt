// Open.
ghost use Rattle.std.specs.Prelude.{◌≡◌};
ghost use Rattle.block.specs.Open.{open_of, opened_as};

use crate::Block;
use crate::checks::BlockLayout;
use ccsds::refusal::Refusal;
use ccsds::tables;

// Sets all symbol bytes and marks to 0 and returns the record; or a refusal, which changes nothing.
pub fn open(b: Block, symbols: &mut [u8], marks: &mut [u8]) -> Result<Block, Refusal>
    ensures answer { opened_as result ≡ (open_of b symbols.old marks.old).answer }
    ensures symbols { symbols.new ≡ (open_of b symbols.old marks.old).symbols }
    ensures marks { marks.new ≡ (open_of b symbols.old marks.old).marks }
{
    let l = BlockLayout {
        block: b,
        layout: tables::layout_of(b.code),
    };
    l.check_block(symbols.len(), marks.len())?;
    symbols.fill(0);
    marks.fill(0);
    Ok(b)
}
