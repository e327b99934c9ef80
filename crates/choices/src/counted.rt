// The best split over how many first cells there are, over the inputs that count.
ghost use Rattle.std.specs.Prelude.{◌≡◌, ◌≤◌, length, replicate};
ghost use Rattle.bits.specs.Numbers.{bit};
ghost use Rattle.tables.specs.Table.{most_inputs, table_length, table_bit};
ghost use Rattle.tables.specs.Counting.{CountingIn};
ghost use Rattle.splits.specs.Columns.{most_first};
ghost use Rattle.choices.specs.Search.{best_over, spread_choice};
ghost use Rattle.choices.specs.Chosen.{choice_of, FewFirst};

use crate::over::{Chosen, find_upto};
use columns::split::Split;
use tables::aside::{set_aside, spread_mask};
use tables::clear;
use tables::counting::CountingInputs;

// Masks over the members of a mask, spread back to the members. (As in quick, but beside
// what is found here stands how many first cells there are; one function for both would take the masks apart again.)
fn spread_back(n: u32, mask: u16, found: Option<Chosen>) -> Option<Chosen>
    requires { (n ≤ most_inputs) × FewFirst found }
    ensures { (choice_of result ≡ spread_choice n (bit mask) (choice_of found)) × FewFirst result }
{
    let Chosen { first, own, shared } = found?;
    Some(Chosen {
        first,
        own: spread_mask(n, mask, own),
        shared: spread_mask(n, mask, shared),
    })
}

// The best split with 1, 2 or 3 first cells of k inputs over the inputs that count, in a work area, which is then
// cleared.
pub fn find_over(
    t: &[u8],
    n: u32,
    counting: CountingInputs,
    k: u32,
    work: &mut [u8],
) -> Option<Chosen>
    requires { (length t.now ≡ table_length n) × (n ≤ most_inputs) × CountingIn n (table_bit t.now) counting
        × (k ≤ most_inputs) × (length t.now ≤ length work.old) }
    ensures { (choice_of result ≡ best_over n (table_bit t.now) k most_first)
        × (work.new ≡ replicate (length work.old) 0) × FewFirst result }
{
    set_aside(t, n, counting.mask, work);
    let found = find_upto(work, counting.many, Split::MOST_FIRST as u32, k);
    clear(work);
    spread_back(n, counting.mask, found)
}
