// The sheet for a gate that make has none for: the chain with several first cells or the sheet of cofactors.
ghost use Rattle.std.specs.Prelude.{◌≡◌, true, false, List, ◌^◌, ◌≤◌, length, replicate, IsSomeAnd};
ghost use Rattle.bits.specs.Numbers.{bit, number};
ghost use Rattle.bits.specs.Sets.{size};
ghost use Rattle.tables.specs.Table.{most_inputs, table_length, table_bit};
ghost use Rattle.tables.specs.Counting.{kept, table_over};
ghost use Rattle.tables.specs.Work.{work_length};
ghost use Rattle.sheets.specs.Edition.{largest_cell};
ghost use Rattle.sheets.specs.Network.{Cell};
ghost use Rattle.sheets.specs.Held.{cells_of};
ghost use Rattle.chains.specs.Chain.{pick, Made, made, inputs};
ghost use Rattle.cofactors.specs.Cofactors.{cofactor_cells};
ghost use Rattle.cofactors.specs.Any.{shorter, otherwise};
ghost use Rattle.cofactors.specs.Chosen.{Near};
ghost use Rattle.making.specs.Chaining.{Tells};

use crate::levels::cofactor_sheet;
use bits::sets::members;
use columns::split::Split;
use making::chaining::{ChainEnd, chain_upto};
use making::signals::Signals;
use sheets::kinds::Sheet;
use tables::aside::set_aside;
use tables::counting::kept_of;
use tables::{HALF, clear};

// Whether a sheet of cofactors has room for so many inputs that count.
fn is_near(k: u32, many: u32) -> bool
    requires { k ≤ largest_cell }
    ensures { (result ≡ true → Near k many) × (result ≡ false → Near k many → ⊥) }
{
    let most = if k < 3 { 2 } else { 3 };
    k < many && many <= k + most
}

// The sheet of cofactors of a gate's table, with what does not count set aside; the work area is cleared.
fn cofactors_of(t: &[u8], n: u32, mask: u16, k: u32, work: &mut [u8]) -> Sheet
    requires le_n { (1 ≤ n) × (n ≤ most_inputs) × (2 ≤ k) × (k ≤ largest_cell) × (length t.now ≡ table_length n)
        × (work_length ≤ length work.old) }
    requires mask_value { (mask ≡ kept n (table_bit t.now)) × Near k (size n (bit mask)) }
    ensures { (cells_of result ≡ cofactor_cells k n (pick n (bit mask) (inputs n)) (table_over n (bit mask) (table_bit t.now)))
        × (work.new ≡ replicate (length work.old) 0) }
{
    set_aside(t, n, mask, work);
    let signals = Signals::inputs(n).pick(mask);
    let sheet = cofactor_sheet(&work[..HALF], n, signals, k);
    clear(work);
    sheet
}

// The chain, or the other sheet where it has fewer cells or the chain has no end.
fn fewer(chain: Option<ChainEnd>, other: Sheet) -> ChainEnd
    ensures { (x : Made) (cs : List Cell) → Tells chain x → cells_of other ≡ cs
        → Tells (Some result) (shorter x (made cs)) }
{
    if let Some(end) = chain {
        if end.count <= other.count {
            return end;
        }
    }
    ChainEnd {
        count: other.count,
        sheet: other,
    }
}

// Whether a chain came to its end with three cells or fewer: no sheet of cofactors has fewer.
fn few_cells(chain: Option<ChainEnd>) -> bool
    ensures { result ≡ true → IsSomeAnd chain (λ end. end.count ≤ 3) }
{
    match chain {
        Some(end) => end.count <= 3,
        None => false,
    }
}

// What is made of a gate's table with up to three first cells at each step, or from its cofactors, whichever has fewer
// cells; the work area is cleared.
pub fn several_or_cofactors(t: &[u8], n: u32, k: u32, work: &mut [u8]) -> Option<ChainEnd>
    requires { (1 ≤ n) × (n ≤ most_inputs) × (2 ≤ k) × (k ≤ largest_cell) × (length t.now ≡ table_length n)
        × (work_length ≤ length work.old) }
    ensures { Tells result (otherwise n k (number (2 ^ n) (table_bit t.now)))
        × (work.new ≡ replicate (length work.old) 0) }
{
    let chain = chain_upto(t, n, Split::MOST_FIRST as u32, k, work);
    if few_cells(chain) {
        return chain;
    }
    let kept = kept_of(t, n);
    if !is_near(k, members(kept)) {
        return chain;
    }
    let cofactors = cofactors_of(t, n, kept, k, work);
    Some(fewer(chain, cofactors))
}
