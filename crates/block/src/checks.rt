// A block's record with its code's numbers, and the refusals that every call on a block uses.
ghost use Rattle.std.specs.Prelude.{◌≡◌};
ghost use Rattle.ccsds.specs.Tables.{code_of};
ghost use Rattle.ccsds.specs.Refusals.{checked_as};
ghost use Rattle.ccsds.specs.inner.Layout.{LayoutOf};
ghost use Rattle.block.specs.Block.{block_refusal};

use crate::Block;
use ccsds::checks;
use ccsds::refusal::Refusal;
use ccsds::tables::{CodeLayout, Layout};

// A block's record with its code's numbers.
#[derive(Clone, Copy)]
pub struct BlockLayout {
    pub block: Block,
    pub layout: Layout,
    pub ghost layout_of: { LayoutOf (code_of block.code) layout },
}

impl BlockLayout {
    // 1 to 3, 13 or 4: of the record and the lengths of its buffers.
    pub fn check_block(self, symbols_len: usize, marks_len: usize) -> Result<(), Refusal>
        ensures { checked_as result ≡ block_refusal self.block symbols_len marks_len }
    {
        let b = self.block;
        let code = CodeLayout {
            number: b.code,
            layout: self.layout,
        };
        checks::check_record(code, b.w, b.protocol, b.lsc, b.fill)?;
        let n = self.layout.k + self.layout.m;
        if symbols_len != n * b.w {
            return Err(Refusal::Length);
        }
        if marks_len != n {
            return Err(Refusal::Length);
        }
        Ok(())
    }
}
