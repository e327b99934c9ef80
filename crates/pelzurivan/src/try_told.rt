// Trying a named split in a told edition, for C.
ghost use Rattle.std.specs.Prelude.{◌≡◌};
ghost use Rattle.splitting.specs.TryTold.{try_told};
ghost use Rattle.splitting.specs.TrySplit.{try_answer};
ghost use Rattle.pelzurivan.specs.TryTold.{tried_told_of, tried_told_c};

use crate::word::word;
use charts::pair::FirstCells;
use refusals::verdicts::Refusal;
use splitting::try_told::try_told;

// The number; D's 32 bytes as four words, the first being its lowest 64 bits; and after 8 where the split breaks and
// how many different columns there are.
#[repr(C)]
#[derive(Clone, Copy)]
pub struct TriedToldC {
    pub number: u64,
    pub d0: u64,
    pub d1: u64,
    pub d2: u64,
    pub d3: u64,
    pub b: u64,
    pub columns: u64,
}

impl From<Result<FirstCells, Refusal>> for TriedToldC {
    ghost from_gives = { λ answer c. c ≡ tried_told_of (try_answer answer) };

    fn from(answer: Result<FirstCells, Refusal>) -> TriedToldC {
        match answer {
            Ok(cells) => TriedToldC {
                number: 0,
                d0: word(cells.first, 0),
                d1: word(cells.first, 1),
                d2: word(cells.first, 2),
                d3: word(cells.first, 3),
                b: 0,
                columns: 0,
            },
            Err(why) => TriedToldC {
                number: why.number() as u64,
                d0: 0,
                d1: 0,
                d2: 0,
                d3: 0,
                b: why.place(),
                columns: why.columns() as u64,
            },
        }
    }
}

// Tries a named split into cells of the edition with that number: D, and H into the lent room.
#[unsafe(no_mangle)]
pub extern "C" fn pelzurivan_try_told(
    edition: u64,
    n: u64,
    k: u64,
    own: u64,
    shared: u64,
    t: &[u8],
    room: &mut [u8],
) -> TriedToldC
    ensures { (result ≡ tried_told_c (try_told edition n k own shared t.now room.old))
        × (room.new ≡ (try_told edition n k own shared t.now room.old).room) }
{
    TriedToldC::from(try_told(edition, n, k, own, shared, t, room))
}
