// Trying a named split with several first cells.
ghost use Rattle.std.specs.Prelude.{◌≡◌};
ghost use Rattle.sheets.specs.Edition.{first_edition};
ghost use Rattle.splitting.specs.TrySplit.{try_answer, try_outcome};

use charts::pair::FirstCells;
use refusals::verdicts::Refusal;
use sheets::kinds::Edition;
use splitting::try_split::try_in;

// Tries the split with the masks own and shared and r first cells: their tables, and H into the lent room.
pub fn try_several(
    n: u64,
    k: u64,
    r: u64,
    own: u64,
    shared: u64,
    t: &[u8],
    room: &mut [u8],
) -> Result<FirstCells, Refusal>
    ensures { record { answer = try_answer result; room = room.new }
        ≡ try_outcome first_edition n k r own shared t.now room.old }
{
    try_in(Edition::first(), n, k, r, own, shared, t, room)
}
