// The length of a unit.
ghost use Rattle.std.specs.Prelude.{◌≡◌, ◌+◌, length};
ghost use Rattle.ccsds.specs.Units.{value_bytes, extension_of, unit_bytes};
ghost use Rattle.ccsds.specs.inner.Compact.{Compact};

use crate::code::Code;
use crate::tables;
use wire::put;

// The coding parameters of a code's units: W has at most two bytes, k and n have two each, in every code.
#[derive(Clone, Copy)]
pub struct Coding {
    pub w: usize,
    pub k: usize,
    pub n: usize,
    pub ghost compact: { Compact w k n },
}

impl Coding {
    // The length of their value. The seed has one byte.
    pub fn value_bytes(self) -> usize
        ensures { result ≡ length (value_bytes self.w self.k self.n) }
    {
        put::sdnv_bytes(self.w) + 5
    }

    // The length of a unit with them.
    pub fn unit_length(self) -> usize
        ensures { result ≡ 6 + length (extension_of self.w self.k self.n) + self.w }
    {
        let value = self.value_bytes();
        7 + put::sdnv_bytes(value) + value + self.w
    }
}

impl Code {
    // Bytes of a unit.
    pub fn unit_bytes(self, w: usize) -> usize
        ensures { result ≡ unit_bytes self.number w }
    {
        if !self.known() {
            return 0;
        }
        if Code::wrong_width(w) {
            return 0;
        }
        let l = tables::layout_of(self.number);
        let c = Coding {
            w,
            k: l.k,
            n: l.k + l.m,
        };
        c.unit_length()
    }
}
