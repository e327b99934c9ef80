// Checking a sheet of a told edition against a table, for C.
ghost use Rattle.std.specs.Prelude.{◌≡◌};
ghost use Rattle.inspection.specs.CheckTold.{check_told};
ghost use Rattle.pelzurivan.specs.CheckSheet.{checked_c};

use crate::check_sheet::CheckedC;
use inspection::check_told::check_told;

// Checks anyone's sheet of the edition with the number `edition` against a gate's table.
#[unsafe(no_mangle)]
pub extern "C" fn pelzurivan_check_told<'a>(
    edition: u64,
    n: u64,
    t: &'a [u8],
    s: &'a [u8],
) -> CheckedC
    ensures { result ≡ checked_c (check_told edition n t.now s.now) }
{
    CheckedC::from(check_told(edition, n, t, s))
}
