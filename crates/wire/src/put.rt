// Puts numbers into an output from a position on, and returns the position after them. Internal: the unit writer's.
ghost use Rattle.std.specs.Prelude.{◌≡◌, [], ◌∷◌, ◌+◌, ◌<◌, ◌≤◌, length};
ghost use Rattle.wire.specs.Sdnv.{sdnv_bytes};
ghost use Rattle.wire.specs.Bytes.{two_bytes};
ghost use Rattle.wire.specs.inner.Appended.{Appended};

#[tactic(auto, using(crate::proofs::AppendedLaws::append_one))]
pub fn byte(out: &mut [u8], at: usize, x: usize) -> usize
    requires { (at < length out.old) × (x < 256) }
    ensures { Appended out.old out.new at result (x ∷ []) }
{
    out[at] = x as u8;
    at + 1
}

// 16 bits, big-endian.
#[tactic(auto, using(crate::proofs::AppendedLaws::then_appended))]
pub fn pair(out: &mut [u8], at: usize, x: usize) -> usize
    requires { (at + 2 ≤ length out.old) × (x < 65536) }
    ensures { Appended out.old out.new at result (two_bytes x) }
{
    let next = byte(out, at, x / 256);
    byte(out, next, x % 256)
}

// A number's shortest SDNV, of two bytes.
pub fn sdnv_2(out: &mut [u8], at: usize, v: usize) -> usize
    requires { (at + 2 ≤ length out.old) × (128 ≤ v) × (v < 16384) }
    ensures { Appended out.old out.new at result (sdnv_bytes v) }
{
    let next = byte(out, at, 128 + v / 128);
    byte(out, next, v % 128)
}

// A number's shortest SDNV, of one byte or two.
#[tactic(auto, using(crate::proofs::SdnvRound::in_one, crate::proofs::SdnvRound::two_long))]
pub fn sdnv(out: &mut [u8], at: usize, v: usize) -> usize
    requires { (at + length (sdnv_bytes v) ≤ length out.old) × (v < 16384) }
    ensures { Appended out.old out.new at result (sdnv_bytes v) }
{
    if v >= 128 {
        return sdnv_2(out, at, v);
    }
    byte(out, at, v)
}

// The length of that.
#[tactic(auto, using(crate::proofs::SdnvRound::in_one, crate::proofs::SdnvRound::in_two))]
pub fn sdnv_bytes(v: usize) -> usize
    requires { v < 16384 }
    ensures { result ≡ length (sdnv_bytes v) }
{
    if v < 128 {
        return 1;
    }
    2
}
