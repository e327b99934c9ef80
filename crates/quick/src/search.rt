// The best split: the largest own set first, then the smallest shared set, then the least masks.
ghost use Rattle.std.specs.Prelude.{◌≡◌, ℕ, ◌+◌, ◌*◌, ◌^◌, ◌<◌, ◌≤◌, length};
ghost use Rattle.bits.specs.Numbers.{bit};
ghost use Rattle.bits.specs.Sets.{size};
ghost use Rattle.tables.specs.Table.{most_inputs, table_bit};
ghost use Rattle.best.specs.Search.{split, above, first, of_sizes, best};
ghost use Rattle.best.specs.Answers.{answer_of};
ghost use Rattle.best.specs.Walk.{most_first};
ghost use Rattle.walks.specs.Known.{Known};
ghost use Rattle.witness.specs.Points.{Wide};
ghost use Rattle.known.specs.Notes.{BadPairs};

use crate::dead::all_dead;
use crate::owning::none_owns;
use best::Masks;
use best::pair::attempt;
use known::notes::Notes;
use known::pairs::{Pairs, fill, unknown};
use walks::walk::walk_own;

// The first possible pair with p own and at most `most` shared inputs, the smallest shared sets first.
fn with_own<'a>(
    t: &'a [u8],
    n: u32,
    r: u32,
    pairs: &'a Pairs,
    p: u32,
    most: u32,
    notes: &mut Notes,
) -> Option<Masks>
    requires { Known n r t.now notes.old × BadPairs n (table_bit t.now) (2 ^ r) pairs.now × (most ≤ most_inputs) }
    ensures { (answer_of result ≡ first (most + 1) (of_sizes n r (table_bit t.now) p))
        × Known n r t.now notes.new }
{
    for q in 0..most + 1 {
        if let Some(found) = walk_own(t, n, r, pairs, q, 0, n, 0, p, notes) {
            return Some(found);
        }
    }
    None
}

// The best split with r first cells of k inputs, if it has more than `low` own inputs: the largest own sets first, by
// what is known of pairs.
fn walk_all<'a>(t: &'a [u8], n: u32, r: u32, pairs: &'a Pairs, k: u32, low: u32) -> Option<Masks>
    requires n_le_most_inputs { (n ≤ most_inputs) × (r ≤ most_first) × (2 ^ n ≤ 8 * length t.now) × (k ≤ most_inputs) × (r ≤ low) }
    requires bad_pairs { BadPairs n (table_bit t.now) (2 ^ r) pairs.now }
    ensures { answer_of result ≡ above n low (best n r (table_bit t.now) k) }
{
    let mut notes = Notes::blank();
    for i in 0..k.saturating_sub(low) {
        if let Some(found) = with_own(t, n, r, pairs, k - i, i, &mut notes) {
            return Some(found);
        }
    }
    None
}

// The very first candidate: the least own mask of k inputs, and nothing shared. Where it is possible, it is the best
// split.
pub fn first_try(t: &[u8], n: u32, r: u32, k: u32) -> Option<Masks>
    requires { (n ≤ most_inputs) × (r ≤ most_first) × (2 ^ n ≤ 8 * length t.now) }
    ensures { (A B : ℕ) → answer_of result ≡ split A B
        → (best n r (table_bit t.now) k ≡ split A B) × (size n (bit A) ≡ k) }
{
    if k <= r || n < k {
        return None;
    }
    let all: u32 = 1 << k;
    attempt(t, n, r, (all - 1) as u16, 0)
}

// The best split with one first cell of a table of one word or more, if it has more than `low` own inputs, by what its
// triples say of pairs.
fn by_pairs(t: &[u8], n: u32, k: u32, low: u32) -> Option<Masks>
    requires { Wide n t.now × (1 ≤ low) × (low < k) × (k ≤ most_inputs) }
    ensures { answer_of result ≡ above n low (best n 1 (table_bit t.now) k) }
{
    let mut pairs = unknown();
    fill(t, n, k - 2, &mut pairs);
    if all_dead(&pairs, n, k) {
        return None;
    }
    walk_all(t, n, 1, &pairs, k, low)
}

// The best split with r first cells of k inputs, if it has more than `low` own inputs: who has a split that good needs
// no other.
pub fn find_above(t: &[u8], n: u32, r: u32, k: u32, low: u32) -> Option<Masks>
    requires { (n ≤ most_inputs) × (r ≤ most_first) × (2 ^ n ≤ 8 * length t.now) × (k ≤ most_inputs) × (r ≤ low) }
    ensures { answer_of result ≡ above n low (best n r (table_bit t.now) k) }
{
    if k <= low {
        return None;
    }
    if n >= 6 && r == 1 {
        return by_pairs(t, n, k, low);
    }
    if none_owns(t, n, r, k, n, 0, r + 1) {
        return None;
    }
    let pairs = unknown();
    walk_all(t, n, r, &pairs, k, low)
}

// The best split with r first cells of k inputs. What splits at once is answered before any table of pairs is filled.
pub fn find_with(t: &[u8], n: u32, r: u32, k: u32) -> Option<Masks>
    requires { (n ≤ most_inputs) × (r ≤ most_first) × (2 ^ n ≤ 8 * length t.now) × (k ≤ most_inputs) }
    ensures { answer_of result ≡ best n r (table_bit t.now) k }
{
    if let Some(early) = first_try(t, n, r, k) {
        return Some(early);
    }
    find_above(t, n, r, k, r)
}
