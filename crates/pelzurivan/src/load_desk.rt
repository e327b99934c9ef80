// Loading a desk, for C.
ghost use Rattle.std.specs.Prelude.{◌≡◌};
ghost use Rattle.cards.specs.LoadDesk.{load_outcome};
ghost use Rattle.refusals.specs.Results.{verdict_of};
ghost use Rattle.pelzurivan.specs.LoadDesk.{loaded_of, loaded_c};

use loads::load_desk::load_desk;
use refusals::verdicts::Refusal;

// The number, the index of a bad record (10) or of an unread one (15).
#[repr(C)]
#[derive(Clone, Copy)]
pub struct LoadedC {
    pub number: u64,
    pub index: u64,
}

impl From<Result<(), Refusal>> for LoadedC {
    ghost from_gives = { λ answer c. c ≡ loaded_of (verdict_of answer) };

    fn from(answer: Result<(), Refusal>) -> LoadedC {
        match answer {
            Ok(_) => LoadedC {
                number: 0,
                index: 0,
            },
            Err(why) => LoadedC {
                number: why.number() as u64,
                index: why.place(),
            },
        }
    }
}

// Loads a sheet of n inputs onto desk d of a card.
#[unsafe(no_mangle)]
pub extern "C" fn pelzurivan_load(card: &mut [u8], d: u64, n: u64, s: &[u8]) -> LoadedC
    ensures { (result ≡ loaded_c (load_outcome card.old d n s.now))
        × (card.new ≡ (load_outcome card.old d n s.now).card) }
{
    LoadedC::from(load_desk(card, d, n, s))
}
