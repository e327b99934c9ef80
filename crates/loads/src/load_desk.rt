// Loading a sheet onto a desk.
ghost use Rattle.std.specs.Prelude.{◌≡◌};
ghost use Rattle.cards.specs.LoadDesk.{load_outcome};
ghost use Rattle.refusals.specs.Results.{verdict_of};

use crate::loading::load_part;
use cards::sizes::STORES;
use refusals::verdicts::Refusal;

// Loads a sheet of n inputs onto desk d of a card.
pub fn load_desk(card: &mut [u8], d: u64, n: u64, s: &[u8]) -> Result<(), Refusal>
    ensures { record { verdict = verdict_of result; card = card.new } ≡ load_outcome card.old d n s.now }
{
    load_part(card, d, n, s, 0, STORES)
}
