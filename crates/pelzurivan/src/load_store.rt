// One store of a load, for C.
ghost use Rattle.std.specs.Prelude.{◌≡◌};
ghost use Rattle.cards.specs.LoadStore.{store_outcome};
ghost use Rattle.pelzurivan.specs.LoadDesk.{loaded_c};

use crate::load_desk::LoadedC;
use loads::load_store::load_store;

// Makes store `which` of a load of a sheet of n inputs onto desk d of a card, and no other.
#[unsafe(no_mangle)]
pub extern "C" fn pelzurivan_load_store(
    card: &mut [u8],
    d: u64,
    n: u64,
    s: &[u8],
    which: u64,
) -> LoadedC
    ensures { (result ≡ loaded_c (store_outcome which card.old d n s.now))
        × (card.new ≡ (store_outcome which card.old d n s.now).card) }
{
    LoadedC::from(load_store(card, d, n, s, which))
}
