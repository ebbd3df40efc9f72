// The refusals of calls on rows.
ghost use Rattle.std.specs.Prelude.{◌≡◌};
ghost use Rattle.ccsds.specs.Refusals.{checked_as};
ghost use Rattle.tiles.specs.PackRefusals.{first_listed};
ghost use Rattle.tiles.specs.Rows.{narrow, row_conditions};

use ccsds::checks;
use ccsds::code::Code;
use ccsds::refusal::Refusal;

// A width that has no room for tile bytes.
pub fn is_narrow(w: usize) -> bool
    ensures { result ≡ narrow w }
{
    w < 5
}

// 1, 2, 15 or 13.
pub fn check_rows(number: usize, w: usize, fill: usize) -> Result<(), Refusal>
    ensures { checked_as result ≡ first_listed (row_conditions number w fill) }
{
    checks::check_code(number, w)?;
    if is_narrow(w) {
        return Err(Refusal::Narrow);
    }
    let code = Code { number };
    if checks::wrong_fill(code.k(), fill) {
        return Err(Refusal::Fill);
    }
    Ok(())
}
