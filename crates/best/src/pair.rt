// One candidate: a pair of masks, tested.
ghost use Rattle.std.specs.Prelude.{◌≡◌, ◌*◌, ◌^◌, ◌<◌, ◌≤◌, length};
ghost use Rattle.bits.specs.Numbers.{bit};
ghost use Rattle.bits.specs.Sets.{Apart, size};
ghost use Rattle.tables.specs.Table.{most_inputs, table_bit};
ghost use Rattle.best.specs.Search.{try_b};
ghost use Rattle.best.specs.Answers.{answer_of};
ghost use Rattle.best.specs.Walk.{most_first};

use crate::Masks;
use columns::columns::few_columns;
use columns::split::Split;

// The pair of masks, if it is possible with r first cells.
pub fn attempt(t: &[u8], n: u32, r: u32, own: u16, shared: u16) -> Option<Masks>
    requires r_le_most_first { (r ≤ most_first) × (2 ^ n ≤ 8 * length t.now) }
    requires n_le_most_inputs { (n ≤ most_inputs) × (own < 2 ^ n) × (shared < 2 ^ n) × Apart n (bit own) (bit shared) }
    ensures { answer_of result ≡ try_b n r (table_bit t.now) (size n (bit shared)) own shared }
{
    if few_columns(t, Split::of(n, own, shared), 1 << r) {
        return Some(Masks { own, shared });
    }
    None
}
