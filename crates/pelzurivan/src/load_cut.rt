// A load that is cut, for C.
ghost use Rattle.std.specs.Prelude.{◌≡◌};
ghost use Rattle.cards.specs.LoadCut.{cut_outcome};
ghost use Rattle.pelzurivan.specs.LoadDesk.{loaded_c};

use crate::load_desk::LoadedC;
use loads::load_cut::load_cut;

// Loads a sheet of n inputs onto desk d of a card, but makes only the first `stores` stores.
#[unsafe(no_mangle)]
pub extern "C" fn pelzurivan_load_cut(
    card: &mut [u8],
    d: u64,
    n: u64,
    s: &[u8],
    stores: u64,
) -> LoadedC
    ensures { (result ≡ loaded_c (cut_outcome stores card.old d n s.now))
        × (card.new ≡ (cut_outcome stores card.old d n s.now).card) }
{
    LoadedC::from(load_cut(card, d, n, s, stores))
}
