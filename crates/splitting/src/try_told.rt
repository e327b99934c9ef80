// Trying a named split into cells of a told edition.
ghost use Rattle.std.specs.Prelude.{◌≡◌};
ghost use Rattle.splitting.specs.TryTold.{try_told};
ghost use Rattle.splitting.specs.TrySplit.{try_answer};

use crate::try_split::try_in;
use charts::pair::FirstCells;
use refusals::form;
use refusals::verdicts::Refusal;
use sheets::kinds::Edition;

// Tries the split with the masks own and shared into cells of the edition with the number w: D, and H into the lent
// room.
pub fn try_told(
    w: u64,
    n: u64,
    k: u64,
    own: u64,
    shared: u64,
    t: &[u8],
    room: &mut [u8],
) -> Result<FirstCells, Refusal>
    ensures { record { answer = try_answer result; room = room.new }
        ≡ try_told w n k own shared t.now room.old }
{
    form::told(w, n)?;
    try_in(Edition::numbered(w), n, k, 1, own, shared, t, room)
}
