// Checking a sheet of a told edition against a gate's table.
ghost use Rattle.std.specs.Prelude.{◌≡◌};
ghost use Rattle.refusals.specs.Results.{verdict_of};
ghost use Rattle.inspection.specs.CheckTold.{check_told};

use crate::check_sheet::check_own;
use refusals::form;
use refusals::verdicts::Refusal;
use sheets::kinds::Edition;

// Checks a sheet of the edition with the number w, whatever its desk, against a table.
pub fn check_told<'a>(w: u64, n: u64, t: &'a [u8], s: &'a [u8]) -> Result<(), Refusal>
    ensures { verdict_of result ≡ check_told w n t.now s.now }
{
    form::told(w, n)?;
    check_own(Edition::numbered(w), n, t, s)
}
