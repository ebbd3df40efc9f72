// A code by its number: table 4-1's numbers, the sizes of the buffers, and the checks of a caller's numbers. For a number that is no
// code's every number and size is 0, and so is a size for a width that is refused.
ghost use Rattle.std.specs.Prelude.{◌≡◌, ◌+◌, ◌*◌, ◌/◌, ◌≤◌};
ghost use Rattle.ccsds.specs.Codes.{n_of};
ghost use Rattle.ccsds.specs.Tables.{code_of, is_code};
ghost use Rattle.ccsds.specs.Refusals.{wrong_width, wrong_position, bytes_of, information_bytes};
ghost use Rattle.ccsds.specs.inner.Layout.{max_n};

use crate::{checks, tables};

#[derive(Clone, Copy)]
pub struct Code {
    pub number: usize,
}

impl Code {
    pub const C1: Code = Code { number: 1 };

    pub const C2: Code = Code { number: 2 };

    pub const C4: Code = Code { number: 4 };

    pub const C5: Code = Code { number: 5 };

    pub const C7: Code = Code { number: 7 };

    pub const C8: Code = Code { number: 8 };

    pub const MAX_WIDTH: usize = 1024;

    // Table 4-1's k and m, their sum, and the words of the first work buffer, where an array's length asks for a constant.
    pub const C1_K: usize = 512;

    pub const C1_M: usize = 256;

    pub const C1_N: usize = Self::C1_K + Self::C1_M;

    pub const C1_WORDS: usize = Self::C1_M * (Self::C1_N / 64 + 1);

    pub const C2_K: usize = 2048;

    pub const C2_M: usize = 1024;

    pub const C2_N: usize = Self::C2_K + Self::C2_M;

    pub const C2_WORDS: usize = Self::C2_M * (Self::C2_N / 64 + 1);

    pub const C4_K: usize = 512;

    pub const C4_M: usize = 128;

    pub const C5_K: usize = 2048;

    pub const C5_M: usize = 512;

    pub const C7_K: usize = 512;

    pub const C7_M: usize = 64;

    pub const C8_K: usize = 2048;

    pub const C8_M: usize = 256;

    // The most symbols and the most parity symbols of a block: those of C2.
    pub const MAX_N: usize = Self::C2_N;

    pub const MAX_M: usize = Self::C2_M;

    // The number is a code's.
    pub fn known(self) -> bool
        ensures { result ≡ is_code self.number }
    {
        let number = self.number;
        match number {
            1 => true,
            2 => true,
            4 => true,
            5 => true,
            7 => true,
            8 => true,
            _ => false,
        }
    }

    // A width that is refused.
    pub fn wrong_width(w: usize) -> bool
        ensures { result ≡ wrong_width w }
    {
        w == 0 || w > Self::MAX_WIDTH
    }

    // Symbols of a block.
    pub fn n(self) -> usize
        ensures { result ≡ n_of (code_of self.number) }
    {
        let l = tables::layout_of(self.number);
        l.k + l.m
    }

    // Information symbols.
    pub fn k(self) -> usize
        ensures { result ≡ (code_of self.number).k }
    {
        tables::layout_of(self.number).k
    }

    // Parity symbols.
    pub fn m(self) -> usize
        ensures { result ≡ (code_of self.number).m }
    {
        tables::layout_of(self.number).m
    }

    // The circulant size.
    pub fn q(self) -> usize
        ensures { result ≡ (code_of self.number).q }
    {
        tables::layout_of(self.number).q
    }

    // m / q.
    pub fn a(self) -> usize
        ensures { result ≡ (code_of self.number).a }
    {
        tables::layout_of(self.number).a
    }

    // An LWC that is refused.
    pub fn wrong_position(self, lwc: usize) -> bool
        ensures { result ≡ wrong_position (n_of (code_of self.number)) lwc }
    {
        checks::wrong_position(self.n(), lwc)
    }

    // Bytes of the information buffer: those of fill symbols. 0 for a fill that is refused too.
    pub fn information_bytes(self, w: usize, fill: usize) -> usize
        ensures { result ≡ information_bytes self.number w fill }
    {
        if checks::wrong_fill(self.k(), fill) {
            return 0;
        }
        bytes(fill, w)
    }

    // Bytes of the parity buffer, and of the second work buffer.
    pub fn parity_bytes(self, w: usize) -> usize
        ensures { result ≡ bytes_of (code_of self.number).m w }
    {
        bytes(self.m(), w)
    }

    // Bytes of a block's symbols. Its marks are n bytes.
    pub fn block_bytes(self, w: usize) -> usize
        ensures { result ≡ bytes_of (n_of (code_of self.number)) w }
    {
        bytes(self.n(), w)
    }

    // 64-bit words of the first work buffer.
    pub fn work_words(self) -> usize
        ensures { result ≡ (code_of self.number).m * (n_of (code_of self.number) / 64 + 1) }
    {
        self.m() * (self.n() / 64 + 1)
    }
}

// Bytes of so many symbols.
fn bytes(symbols: usize, w: usize) -> usize
    requires { symbols ≤ max_n }
    ensures { result ≡ bytes_of symbols w }
{
    if Code::wrong_width(w) {
        return 0;
    }
    symbols * w
}
