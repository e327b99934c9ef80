// The best split over how many first cells there are: of the best of each r, the first in the order.
ghost use Rattle.std.specs.Prelude.{◌≡◌, ◌+◌, ◌*◌, ◌^◌, ◌<◌, ◌≤◌, length};
ghost use Rattle.tables.specs.Table.{most_inputs, table_bit};
ghost use Rattle.splits.specs.Columns.{most_first};
ghost use Rattle.best.specs.Search.{split};
ghost use Rattle.best.specs.Answers.{answer_of};
ghost use Rattle.choices.specs.Search.{better, sparing, best_up_to};
ghost use Rattle.choices.specs.Chosen.{choice_of, FewFirst, OwnBelow, SplitBelow, Spares, Floor, AtOnce};

use best::Masks;
use bits::sets::members;
use quick::search::{find_above, first_try};

// How many first cells, and the masks.
#[derive(Clone, Copy, Debug, PartialEq, Eq)]
pub struct Chosen {
    pub first: u32,
    pub own: u16,
    pub shared: u16,
}

// A split with r first cells, or the choice so far, if its |A| - r is as large.
fn larger(n: u32, r: u32, kept: Option<Chosen>, own: u16, shared: u16) -> Chosen
    requires { (1 ≤ r) × (r ≤ most_first) × (n ≤ most_inputs) × FewFirst kept × OwnBelow n (choice_of kept)
        × (own < 2 ^ n) }
    ensures { (choice_of (Some result) ≡ better n r (choice_of kept) (split own shared)) × FewFirst (Some result) }
{
    let fresh = Chosen {
        first: r,
        own,
        shared,
    };
    let Some(best) = kept else {
        return fresh;
    };
    if members(best.own) + r < members(own) + best.first {
        return fresh;
    }
    best
}

// The same of what was found with r first cells.
fn with_found(n: u32, r: u32, kept: Option<Chosen>, found: Option<Masks>) -> Option<Chosen>
    requires le_r { (1 ≤ r) × (r ≤ most_first) × (n ≤ most_inputs) × FewFirst kept }
    requires own_below { OwnBelow n (choice_of kept) × SplitBelow n (answer_of found) }
    ensures { (choice_of result ≡ better n r (choice_of kept) (answer_of found)) × FewFirst result }
{
    match found {
        Some(masks) => Some(larger(n, r, kept, masks.own, masks.shared)),
        None => kept,
    }
}

// How many own inputs a split with r first cells must have more than, to be of use: as many as make it spare no more
// than the choice so far; without one, `low` more than r.
fn floor(n: u32, r: u32, kept: Option<Chosen>, low: u32) -> u32
    requires { (n ≤ most_inputs) × (r ≤ most_first) × (low ≤ most_inputs) × OwnBelow n (choice_of kept)
        × Spares n low (choice_of kept) }
    ensures { Floor n r low (choice_of kept) result }
{
    match kept {
        Some(best) => members(best.own) - best.first + r,
        None => low + r,
    }
}

// The best split with up to `most` first cells of k inputs, if its |A| - r is more than `low`.
fn find_sparing(t: &[u8], n: u32, most: u32, k: u32, low: u32) -> Option<Chosen>
    requires { (n ≤ most_inputs) × (most ≤ most_first) × (2 ^ n ≤ 8 * length t.now) × (k ≤ most_inputs) × (low ≤ most_inputs) }
    ensures { (choice_of result ≡ sparing n low (best_up_to n (table_bit t.now) k most)) × FewFirst result }
{
    let mut kept = None;
    for r in 1..most + 1 {
        let found = find_above(t, n, r, k, floor(n, r, kept, low));
        kept = with_found(n, r, kept, found);
    }
    kept
}

// The least number of first cells whose very first candidate is possible, and that split.
fn at_once(t: &[u8], n: u32, upto: u32, k: u32) -> Option<Chosen>
    requires { (n ≤ most_inputs) × (upto ≤ most_first) × (2 ^ n ≤ 8 * length t.now) }
    ensures { AtOnce n k upto (table_bit t.now) (choice_of result) }
{
    for r in 1..upto + 1 {
        if let Some(early) = first_try(t, n, r, k) {
            return Some(Chosen {
                first: r,
                own: early.own,
                shared: early.shared,
            });
        }
    }
    None
}

// The best split with up to `most` first cells of k inputs. A split found at once has k own inputs: more first cells
// spare less, and fewer are of use only where they spare as much.
pub fn find_upto(t: &[u8], n: u32, most: u32, k: u32) -> Option<Chosen>
    requires { (n ≤ most_inputs) × (most ≤ most_first) × (2 ^ n ≤ 8 * length t.now) × (k ≤ most_inputs) }
    ensures { (choice_of result ≡ best_up_to n (table_bit t.now) k most) × FewFirst result }
{
    let Some(early) = at_once(t, n, most, k) else {
        return find_sparing(t, n, most, k, 0);
    };
    let fewer = early.first - 1;
    let kept = find_sparing(t, n, fewer, k, k - early.first - 1);
    Some(larger(n, early.first, kept, early.own, early.shared))
}
