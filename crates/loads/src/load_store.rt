// One store of a load: for making the stores of several loads in any order.
ghost use Rattle.std.specs.Prelude.{◌≡◌};
ghost use Rattle.cards.specs.LoadStore.{store_outcome};
ghost use Rattle.refusals.specs.Results.{verdict_of};

use crate::loading::load_part;
use cards::sizes::STORES;
use refusals::verdicts::Refusal;

// Makes store `which` of a load of a sheet of n inputs onto desk d of a card, and no other.
pub fn load_store(card: &mut [u8], d: u64, n: u64, s: &[u8], which: u64) -> Result<(), Refusal>
    ensures { record { verdict = verdict_of result; card = card.new } ≡ store_outcome which card.old d n s.now }
{
    if STORES as u64 <= which {
        return load_part(card, d, n, s, STORES, STORES);
    }
    let i = which as usize;
    load_part(card, d, n, s, i, i + 1)
}
