// The marks of a block, and the status of a position by them. Nothing else compares a mark with a number.
ghost use Rattle.std.specs.Prelude.{◌≡◌};
ghost use Rattle.block.specs.Status.{wrong_mark, status_by, status_as};

// Numbers: marks are bytes of a buffer that C lends.
pub const MISSING: u8 = 0;

pub const HEARD: u8 = 1;

pub const FILLED: u8 = 2;

// What a position that is not idle is: heard, or missing, whether an earlier close filled it or not.
#[derive(Clone, Copy)]
pub enum Status {
    Heard,
    Missing,
}

// 11, mark: above every mark there is.
#[tactic(auto, unfolding(crate::specs::Status::wrong_mark))]
pub fn wrong(mark: u8) -> bool
    ensures { result ≡ wrong_mark mark }
{
    mark > FILLED
}

// The status of a position that is not idle, by its mark.
pub fn of(mark: u8) -> Status
    ensures { status_as result ≡ status_by mark }
{
    if mark == HEARD {
        Status::Heard
    } else {
        Status::Missing
    }
}
