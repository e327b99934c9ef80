// Running a sheet of a told edition, for C.
ghost use Rattle.std.specs.Prelude.{◌≡◌};
ghost use Rattle.running.specs.RunTold.{run_told};
ghost use Rattle.pelzurivan.specs.RunSheet.{ran_c};

use crate::run_sheet::RanC;
use running::run_told::run_told;

// Runs a sheet of the edition with the number `edition` at the assignment x: one bit.
#[unsafe(no_mangle)]
pub extern "C" fn pelzurivan_run_told(edition: u64, n: u64, s: &[u8], x: u64) -> RanC
    ensures { result ≡ ran_c (run_told edition n s.now x) }
{
    RanC::from(run_told(edition, n, s, x))
}
