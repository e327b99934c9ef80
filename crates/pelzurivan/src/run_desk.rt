// Running a desk, for C.
ghost use Rattle.std.specs.Prelude.{◌≡◌};
ghost use Rattle.cards.specs.RunDesk.{run_desk_outcome};
ghost use Rattle.pelzurivan.specs.RunSheet.{ran_c};

use crate::run_sheet::RanC;
use desks::run_desk::run_desk;

// Runs desk d of a card at the assignment x: one bit.
#[unsafe(no_mangle)]
pub extern "C" fn pelzurivan_run_desk(card: &[u8], d: u64, x: u64) -> RanC
    ensures { result ≡ ran_c (run_desk_outcome card.now d x) }
{
    RanC::from(run_desk(card, d, x))
}
