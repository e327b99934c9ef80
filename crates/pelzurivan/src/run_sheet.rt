// Running a sheet, for C.
ghost use Rattle.std.specs.Prelude.{◌≡◌};
ghost use Rattle.sheets.specs.Edition.{first_edition};
ghost use Rattle.running.specs.RunSheet.{run_own, run_answer};
ghost use Rattle.pelzurivan.specs.RunSheet.{ran_c};

use refusals::verdicts::Refusal;
use running::run_sheet::run_sheet;

// The number, the bit, the index of a bad record (10) or of an unread one (15).
#[repr(C)]
#[derive(Clone, Copy)]
pub struct RanC {
    pub number: u64,
    pub bit: u64,
    pub index: u64,
}

impl From<Result<bool, Refusal>> for RanC {
    ghost from_gives = { λ answer c. c ≡ ran_c (run_answer answer) };

    fn from(answer: Result<bool, Refusal>) -> RanC {
        match answer {
            Ok(bit) => RanC {
                number: 0,
                bit: bit as u64,
                index: 0,
            },
            Err(why) => RanC {
                number: why.number() as u64,
                bit: 0,
                index: why.place(),
            },
        }
    }
}

// Runs a sheet at the assignment x: one bit.
#[unsafe(no_mangle)]
pub extern "C" fn pelzurivan_run(n: u64, s: &[u8], x: u64) -> RanC
    ensures { result ≡ ran_c (run_own first_edition n s.now x) }
{
    RanC::from(run_sheet(n, s, x))
}
