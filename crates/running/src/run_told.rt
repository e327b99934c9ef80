// Running a sheet of a told edition at an assignment.
ghost use Rattle.std.specs.Prelude.{◌≡◌};
ghost use Rattle.running.specs.RunSheet.{run_answer};
ghost use Rattle.running.specs.RunTold.{run_told};

use crate::run_sheet::run_own;
use refusals::form;
use refusals::verdicts::Refusal;
use sheets::kinds::Edition;

// Runs a sheet of the edition with the number w, whatever its desk, at the assignment x: the bit.
pub fn run_told(w: u64, n: u64, s: &[u8], x: u64) -> Result<bool, Refusal>
    ensures { run_answer result ≡ run_told w n s.now x }
{
    form::told(w, n)?;
    run_own(Edition::numbered(w), n, s, x)
}
