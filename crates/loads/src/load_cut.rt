// A load that is cut, as by a pulled plug: for trying what a desk then answers.
ghost use Rattle.std.specs.Prelude.{◌≡◌};
ghost use Rattle.cards.specs.LoadCut.{cut_outcome};
ghost use Rattle.refusals.specs.Results.{verdict_of};

use crate::loading::load_part;
use cards::sizes::STORES;
use refusals::verdicts::Refusal;

// Loads a sheet of n inputs onto desk d of a card, but makes only the first `stores` stores.
pub fn load_cut(card: &mut [u8], d: u64, n: u64, s: &[u8], stores: u64) -> Result<(), Refusal>
    ensures { record { verdict = verdict_of result; card = card.new } ≡ cut_outcome stores card.old d n s.now }
{
    if STORES as u64 <= stores {
        return load_part(card, d, n, s, 0, STORES);
    }
    load_part(card, d, n, s, 0, stores as usize)
}
