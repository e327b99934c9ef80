// When the output settles, for C.
ghost use Rattle.std.specs.Prelude.{◌≡◌};
ghost use Rattle.sheets.specs.Edition.{first_edition};
ghost use Rattle.settling.specs.Settle.{settle_own, settle_answer};
ghost use Rattle.pelzurivan.specs.InputTimes.{times_from_c};
ghost use Rattle.pelzurivan.specs.Settle.{settled_c};

use crate::input_times::{TimesC, input_times};
use refusals::verdicts::Refusal;
use settling::settle::{Settled, settle};

// The number, the first bad record, the output's earliest and latest time.
#[repr(C)]
#[derive(Clone, Copy)]
pub struct SettledC {
    pub number: u64,
    pub index: u64,
    pub earliest: f64,
    pub latest: f64,
}

impl From<Result<Settled, Refusal>> for SettledC {
    ghost from_gives = { λ answer c. c ≡ settled_c (settle_answer answer) };

    fn from(answer: Result<Settled, Refusal>) -> SettledC {
        match answer {
            Ok(times) => SettledC {
                number: 0,
                index: 0,
                earliest: times.earliest,
                latest: times.latest,
            },
            Err(why) => SettledC {
                number: why.number() as u64,
                index: why.place(),
                earliest: 0.0,
                latest: 0.0,
            },
        }
    }
}

// When the output settles, where each cell takes the same delay.
#[unsafe(no_mangle)]
pub extern "C" fn pelzurivan_settle(n: u64, s: &[u8], delay: f64, c: TimesC) -> SettledC
    ensures { result ≡ settled_c (settle_own first_edition n s.now delay (times_from_c c)) }
{
    SettledC::from(settle(n, s, delay, input_times(c)))
}
