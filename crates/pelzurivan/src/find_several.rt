// Finding the best split with several first cells, for C.
ghost use Rattle.std.specs.Prelude.{◌≡◌};
ghost use Rattle.sheets.specs.Edition.{first_edition};
ghost use Rattle.several.specs.FindSeveral.{find_several_outcome, several_answer};
ghost use Rattle.pelzurivan.specs.FindSeveral.{sought_several_of, sought_several_c};

use choices::over::Chosen;
use refusals::verdicts::Refusal;
use several::find_several::find_several;

// The number, how many first cells, the own and the shared mask.
#[repr(C)]
#[derive(Clone, Copy)]
pub struct SoughtSeveralC {
    pub number: u64,
    pub r: u64,
    pub own: u64,
    pub shared: u64,
}

impl From<Result<Chosen, Refusal>> for SoughtSeveralC {
    ghost from_gives = { λ answer c. c ≡ sought_several_of (several_answer answer) };

    fn from(answer: Result<Chosen, Refusal>) -> SoughtSeveralC {
        match answer {
            Ok(found) => SoughtSeveralC {
                number: 0,
                r: found.first as u64,
                own: found.own as u64,
                shared: found.shared as u64,
            },
            Err(why) => SoughtSeveralC {
                number: why.number() as u64,
                r: 0,
                own: 0,
                shared: 0,
            },
        }
    }
}

// Finds the best split with 1, 2 or 3 first cells: how many, and two masks.
#[unsafe(no_mangle)]
pub extern "C" fn pelzurivan_find_several(
    n: u64,
    k: u64,
    t: &[u8],
    work: &mut [u8],
) -> SoughtSeveralC
    ensures { (result ≡ sought_several_c (find_several_outcome first_edition n k t.now work.old))
        × (work.new ≡ (find_several_outcome first_edition n k t.now work.old).work) }
{
    SoughtSeveralC::from(find_several(n, k, t, work))
}
