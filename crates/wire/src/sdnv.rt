// SDNV numbers at a position of a slice. Internal: the unit reader's.
ghost use Rattle.std.specs.Prelude.{◌≡◌};
ghost use Rattle.wire.specs.Sdnv.{number_at, sdnv_as};

// A number, and the position after it.
#[derive(Clone, Copy)]
pub struct Number {
    pub value: usize,
    pub end: usize,
}

// Why there is no number: the bytes end before it does, or one of them can't be accepted.
#[derive(Clone, Copy, Debug, PartialEq, Eq)]
pub enum SdnvError {
    Unfinished,
    Wrong,
}

// The number at a position: at most five bytes, at most 4,294,967,295, in its shortest form.
pub fn number_at(s: &[u8], at: usize) -> Result<Number, SdnvError>
    ensures { sdnv_as result ≡ number_at s.now at }
{
    let mut value: usize = 0;
    for i in 0..5 {
        let Some(b) = s.get(at + i) else {
            return Err(SdnvError::Unfinished);
        };
        let b = usize::from(*b);
        value = value * 128 + b % 128;
        if b < 128 {
            if value > 4294967295 {
                return Err(SdnvError::Wrong);
            }
            return Ok(Number {
                value,
                end: at + i + 1,
            });
        }
        // still 0: this was a leading 80
        if value == 0 {
            return Err(SdnvError::Wrong);
        }
    }
    Err(SdnvError::Wrong)
}
