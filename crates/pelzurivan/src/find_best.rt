// Finding the best split, for C.
ghost use Rattle.std.specs.Prelude.{◌≡◌};
ghost use Rattle.sheets.specs.Edition.{first_edition};
ghost use Rattle.finding.specs.FindBest.{find_outcome, find_answer};
ghost use Rattle.pelzurivan.specs.FindBest.{sought_of, sought_c};

use best::Masks;
use finding::find_best::find_best;
use refusals::verdicts::Refusal;

// The number, the own and the shared mask.
#[repr(C)]
#[derive(Clone, Copy)]
pub struct SoughtC {
    pub number: u64,
    pub own: u64,
    pub shared: u64,
}

impl From<Result<Masks, Refusal>> for SoughtC {
    ghost from_gives = { λ answer c. c ≡ sought_of (find_answer answer) };

    fn from(answer: Result<Masks, Refusal>) -> SoughtC {
        match answer {
            Ok(masks) => SoughtC {
                number: 0,
                own: masks.own as u64,
                shared: masks.shared as u64,
            },
            Err(why) => SoughtC {
                number: why.number() as u64,
                own: 0,
                shared: 0,
            },
        }
    }
}

// Finds the best split: two masks.
#[unsafe(no_mangle)]
pub extern "C" fn pelzurivan_find(n: u64, k: u64, t: &[u8], work: &mut [u8]) -> SoughtC
    ensures { (result ≡ sought_c (find_outcome first_edition n k t.now work.old))
        × (work.new ≡ (find_outcome first_edition n k t.now work.old).work) }
{
    SoughtC::from(find_best(n, k, t, work))
}
