// Trying a named split with several first cells, for C.
ghost use Rattle.std.specs.Prelude.{◌≡◌};
ghost use Rattle.sheets.specs.Edition.{first_edition};
ghost use Rattle.splitting.specs.TrySplit.{try_outcome, try_answer};
ghost use Rattle.pelzurivan.specs.TrySeveral.{tried_several_of, tried_several_c};

use crate::word::word;
use charts::pair::FirstCells;
use refusals::verdicts::Refusal;
use several::try_several::try_several;

// The number, the first cells' tables, and after 8 where the split breaks and how many different columns there are.
#[repr(C)]
#[derive(Clone, Copy)]
pub struct TriedSeveralC {
    pub number: u64,
    pub first: u64,
    pub second: u64,
    pub third: u64,
    pub b: u64,
    pub columns: u64,
}

impl From<Result<FirstCells, Refusal>> for TriedSeveralC {
    ghost from_gives = { λ answer c. c ≡ tried_several_of (try_answer answer) };

    fn from(answer: Result<FirstCells, Refusal>) -> TriedSeveralC {
        match answer {
            Ok(cells) => TriedSeveralC {
                number: 0,
                first: word(cells.first, 0),
                second: word(cells.second, 0),
                third: word(cells.third, 0),
                b: 0,
                columns: 0,
            },
            Err(why) => TriedSeveralC {
                number: why.number() as u64,
                first: 0,
                second: 0,
                third: 0,
                b: why.place(),
                columns: why.columns() as u64,
            },
        }
    }
}

// Tries a named split with r first cells: their tables, and H into the lent room.
#[unsafe(no_mangle)]
pub extern "C" fn pelzurivan_try_several(
    n: u64,
    k: u64,
    r: u64,
    own: u64,
    shared: u64,
    t: &[u8],
    room: &mut [u8],
) -> TriedSeveralC
    ensures { (result ≡ tried_several_c (try_outcome first_edition n k r own shared t.now room.old))
        × (room.new ≡ (try_outcome first_edition n k r own shared t.now room.old).room) }
{
    TriedSeveralC::from(try_several(n, k, r, own, shared, t, room))
}
