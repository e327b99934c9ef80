// The columns of a split: read by stepping from one spread number to the next, so that nothing is packed or unpacked.
ghost use Rattle.std.specs.Prelude.{◌≡◌, map, ℕ, ◌+◌, ◌*◌, ◌^◌, ◌<◌, ◌≤◌, length, get_or, take};
ghost use Rattle.bits.specs.Numbers.{bit};
ghost use Rattle.tables.specs.Table.{table_bit};
ghost use Rattle.bits.specs.Places.{found_below, place_or};
ghost use Rattle.bits.specs.Sets.{size};
ghost use Rattle.splits.specs.Columns.{index, most_own, most_columns, few_columns, first_broken};
ghost use Rattle.columns.specs.Broken.{broken_at, found_break};
ghost use Rattle.columns.specs.Reading.{Without, Within, alike, shared_part, column_at, columns_of, Seen};

use crate::split::Split;
use bits::sets::{next, parts, spread_out};
use tables::words::bits_from;

// So many different columns are told apart: those of 3 first cells.
const MOST_COLUMNS: usize = 8;

// And so many where it is asked how many there are: those of 8 own inputs.
const ALL_COLUMNS: usize = 256;

// Where a split breaks: a shared assignment, and how many different columns it has.
#[derive(Clone, Copy, Debug, PartialEq, Eq)]
pub struct Broken {
    pub b: u32,
    pub columns: usize,
}

// Whether the columns read from x and from y on are equal: word by word, at the places that the free inputs below 6
// make.
pub fn same_column(t: &[u8], s: Split, x: u32, y: u32) -> bool
    requires starts { Without s.n s.free x × Without s.n s.free y }
    requires n_bound { 2 ^ s.n ≤ 8 * length t.now }
    ensures { result ≡ alike s.n (table_bit t.now) s.free x y }
{
    let high = s.free / 64 * 64;
    let mut f: u32 = 0;
    for _v in 0..s.words {
        if bits_from(t, x + f) & s.low != bits_from(t, y + f) & s.low {
            return false;
        }
        f = next(s.n, high, f);
    }
    true
}

// The place of the column at z among those that the first k numbers seen stand for.
pub fn place<'a>(
    t: &'a [u8],
    s: Split,
    base: u32,
    z: u32,
    seen: &'a [u16],
    k: usize,
) -> Option<usize>
    requires base_within { Within s.n s.shared base × Within s.n s.own z }
    requires n_bound { 2 ^ s.n ≤ 8 * length t.now }
    requires k_in_bounds { (k ≤ length seen.now) × ((i : ℕ) → i < k → Within s.n s.own (get_or seen.now i 0)) }
    ensures { result ≡ found_below k (index (column_at s (table_bit t.now) (shared_part s base) z)
        (map (column_at s (table_bit t.now) (shared_part s base)) (take k seen.now))) }
{
    for i in 0..k {
        if same_column(t, s, base + z, base + seen[i] as u32) {
            return Some(i);
        }
    }
    None
}

// How many different columns the shared assignment at `base` has, and nothing as soon as it has more than the limit.
// The numbers seen stand for them, in order of first appearance.
pub fn look_through(t: &[u8], s: Split, base: u32, limit: usize, seen: &mut [u16]) -> Option<usize>
    requires base_within { Within s.n s.shared base × (limit ≤ length seen.old) × (limit < 65536) }
    requires n_bound { 2 ^ s.n ≤ 8 * length t.now }
    ensures counted { result ≡ found_below (limit + 1) (length (columns_of s (table_bit t.now) (shared_part s base))) }
    ensures seen { Seen s (table_bit t.now) (shared_part s base) limit seen.old seen.new (place_or (limit + 1) result) }
{
    let mut k: usize = 0;
    let mut z: u32 = 0;
    for _a in 0..parts(s.n, s.own) {
        if place(t, s, base, z, seen, k).is_none() {
            if k == limit {
                return None;
            }
            seen[k] = z as u16;
            k += 1;
        }
        z = next(s.n, s.own, z);
    }
    Some(k)
}

// The first shared assignment that has more different columns than the limit. It stops there, and as soon as there is
// one column too many.
fn first_broken(t: &[u8], s: Split, limit: usize) -> Option<u32>
    requires { (limit ≤ most_columns) × (2 ^ s.n ≤ 8 * length t.now) }
    ensures { result ≡ found_below (2 ^ size s.n (bit s.shared))
        (first_broken s.n (table_bit t.now) (bit s.own) (bit s.shared) limit) }
{
    let mut seen = [0u16; MOST_COLUMNS];
    let mut base: u32 = 0;
    for b in 0..parts(s.n, s.shared) {
        if look_through(t, s, base, limit, &mut seen).is_none() {
            return Some(b);
        }
        base = next(s.n, s.shared, base);
    }
    None
}

// The column test: whether no shared assignment has more different columns than the limit.
pub fn few_columns(t: &[u8], s: Split, limit: usize) -> bool
    requires { (limit ≤ most_columns) × (2 ^ s.n ≤ 8 * length t.now) }
    ensures { result ≡ few_columns s.n (table_bit t.now) (bit s.own) (bit s.shared) limit }
{
    first_broken(t, s, limit).is_none()
}

// How many different columns the shared assignment number b has.
fn columns_at(t: &[u8], s: Split, b: u32) -> usize
    requires own_bound { (size s.n (bit s.own) ≤ most_own) × (2 ^ s.n ≤ 8 * length t.now) }
    requires b_bound { b < 2 ^ size s.n (bit s.shared) }
    ensures { result ≡ length (columns_of s (table_bit t.now) b) }
{
    let mut seen = [0u16; ALL_COLUMNS];
    let base = spread_out(s.n, s.shared, b);
    look_through(t, s, base, ALL_COLUMNS, &mut seen).unwrap()
}

// Where the column test fails, if it does, and how many columns there are. They are counted only there.
pub fn break_of(t: &[u8], s: Split, limit: usize) -> Option<Broken>
    requires limit_bound { (limit ≤ most_columns) × (2 ^ s.n ≤ 8 * length t.now) }
    requires own_bound { size s.n (bit s.own) ≤ most_own }
    ensures { result ≡ found_break (broken_at s.n (table_bit t.now) (bit s.own) (bit s.shared) limit) }
{
    let b = first_broken(t, s, limit)?;
    Some(Broken {
        b,
        columns: columns_at(t, s, b),
    })
}
