// Turning one three-input table into another, for C.
ghost use Rattle.std.specs.Prelude.{◌≡◌};
ghost use Rattle.turning.specs.Turn.{turn_outcome, turn_answer};
ghost use Rattle.pelzurivan.specs.Turn.{turned_c};

use refusals::verdicts::Refusal;
use turning::turn::turn;
use turning::ways::Way;

// The number, whether the output is flipped, the mask of input flips, the order of the inputs.
#[repr(C)]
#[derive(Clone, Copy)]
pub struct TurnedC {
    pub number: u64,
    pub flip: u64,
    pub mask: u64,
    pub p0: u64,
    pub p1: u64,
    pub p2: u64,
}

impl From<Result<Way, Refusal>> for TurnedC {
    ghost from_gives = { λ answer c. c ≡ turned_c (turn_answer answer) };

    fn from(answer: Result<Way, Refusal>) -> TurnedC {
        match answer {
            Ok(way) => TurnedC {
                number: 0,
                flip: way.flip as u64,
                mask: way.mask as u64,
                p0: way.p0 as u64,
                p1: way.p1 as u64,
                p2: way.p2 as u64,
            },
            Err(why) => TurnedC {
                number: why.number() as u64,
                flip: 0,
                mask: 0,
                p0: 0,
                p1: 0,
                p2: 0,
            },
        }
    }
}

// The first way that turns the one table into the other.
#[unsafe(no_mangle)]
pub extern "C" fn pelzurivan_turn(first: u8, second: u8) -> TurnedC
    ensures { result ≡ turned_c (turn_outcome first second) }
{
    TurnedC::from(turn(first, second))
}
