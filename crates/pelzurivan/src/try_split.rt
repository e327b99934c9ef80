// Trying a named split, for C.
ghost use Rattle.std.specs.Prelude.{◌≡◌};
ghost use Rattle.sheets.specs.Edition.{first_edition};
ghost use Rattle.splitting.specs.TrySplit.{try_outcome, try_answer};
ghost use Rattle.pelzurivan.specs.TrySplit.{tried_of, tried_c};

use crate::word::word;
use charts::pair::FirstCells;
use refusals::verdicts::Refusal;
use splitting::try_split::try_split;

// The number, D, and after 8 where the split breaks and how many different columns there are.
#[repr(C)]
#[derive(Clone, Copy)]
pub struct TriedC {
    pub number: u64,
    pub d: u64,
    pub b: u64,
    pub columns: u64,
}

impl From<Result<FirstCells, Refusal>> for TriedC {
    ghost from_gives = { λ answer c. c ≡ tried_of (try_answer answer) };

    fn from(answer: Result<FirstCells, Refusal>) -> TriedC {
        match answer {
            Ok(cells) => TriedC {
                number: 0,
                d: word(cells.first, 0),
                b: 0,
                columns: 0,
            },
            Err(why) => TriedC {
                number: why.number() as u64,
                d: 0,
                b: why.place(),
                columns: why.columns() as u64,
            },
        }
    }
}

// Tries a named split: D, and H into the lent room.
#[unsafe(no_mangle)]
pub extern "C" fn pelzurivan_try(
    n: u64,
    k: u64,
    own: u64,
    shared: u64,
    t: &[u8],
    room: &mut [u8],
) -> TriedC
    ensures { (result ≡ tried_c (try_outcome first_edition n k 1 own shared t.now room.old))
        × (room.new ≡ (try_outcome first_edition n k 1 own shared t.now room.old).room) }
{
    TriedC::from(try_split(n, k, own, shared, t, room))
}
