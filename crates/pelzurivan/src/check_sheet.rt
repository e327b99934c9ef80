// Checking a sheet against a table, for C.
ghost use Rattle.std.specs.Prelude.{◌≡◌};
ghost use Rattle.sheets.specs.Edition.{first_edition};
ghost use Rattle.inspection.specs.CheckSheet.{check_own};
ghost use Rattle.refusals.specs.Results.{verdict_of};
ghost use Rattle.pelzurivan.specs.CheckSheet.{checked_c};

use inspection::check_sheet::check_sheet;
use refusals::verdicts::Refusal;

// The number; the record's index (10, 15) or the least differing assignment (12).
#[repr(C)]
#[derive(Clone, Copy)]
pub struct CheckedC {
    pub number: u64,
    pub place: u64,
}

impl From<Result<(), Refusal>> for CheckedC {
    ghost from_gives = { λ answer c. c ≡ checked_c (verdict_of answer) };

    fn from(answer: Result<(), Refusal>) -> CheckedC {
        match answer {
            Ok(_) => CheckedC {
                number: 0,
                place: 0,
            },
            Err(why) => CheckedC {
                number: why.number() as u64,
                place: why.place(),
            },
        }
    }
}

// Checks anyone's sheet against a gate's table.
#[unsafe(no_mangle)]
pub extern "C" fn pelzurivan_check<'a>(n: u64, t: &'a [u8], s: &'a [u8]) -> CheckedC
    ensures { result ≡ checked_c (check_own first_edition n t.now s.now) }
{
    CheckedC::from(check_sheet(n, t, s))
}
