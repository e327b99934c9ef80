// Two own positions and one free one: the smallest witnesses, looked for by whole words.
ghost use Rattle.std.specs.Prelude.{◌≡◌, ℕ, ◌^◌, ◌<◌, ◌≤◌, true, bit_or};
ghost use Rattle.bits.specs.Numbers.{bit};
ghost use Rattle.tables.specs.Table.{most_inputs, table_bit};
ghost use Rattle.best.specs.Moves.{both};
ghost use Rattle.witness.specs.Witness.{RulesOut, single};
ghost use Rattle.witness.specs.Points.{Wide, Turned, Off, Still, Steps};

use bits::patterns::of_input;
use bits::sets::{next, parts};
use tables::words::bits_from;

// The places of a word at which input j is 0; every place where j is not below 6.
pub fn off(j: u32) -> u64
    ensures { Off j result }
{
    if j < 6 { !of_input(j) } else { u64::MAX }
}

// The positions that step from word to word, without those of `own`.
fn steps(n: u32, own: u32) -> u16
    requires { (6 ≤ n) × (n ≤ most_inputs) }
    ensures { Steps n own result }
{
    let all: u32 = 1 << n;
    ((all - 64) & !own) as u16
}

// Where the bits from x on change as the positions of s are set.
fn change(t: &[u8], n: u32, x: u32, s: u32) -> u64
    requires { Wide n t.now × (x < 2 ^ n) × (s < 2 ^ n) }
    ensures { Turned (table_bit t.now) x s result }
{
    bits_from(t, x | s) ^ bits_from(t, x)
}

// Where, from x on, the four points with p, q, both and neither have three columns over d: some point changes without
// d, some with d, and some with one of the two alone.
fn clash(t: &[u8], n: u32, x: u32, d: u32, p: u32, q: u32) -> u64
    requires { Wide n t.now × (x < 2 ^ n) × (d < 2 ^ n) × (p < 2 ^ n) × (q < 2 ^ n) }
    ensures { (k : ℕ) → Still n x d p q k → bit result k ≡ true
        → RulesOut n (table_bit t.now) 2 (bit (bit_or p q)) (bit d) }
{
    let r = p | q;
    let y = x | d;
    let ap = change(t, n, x, p);
    let aq = change(t, n, x, q);
    let ar = change(t, n, x, r);
    let bp = change(t, n, y, p);
    let bq = change(t, n, y, q);
    let br = change(t, n, y, r);
    (ap | aq | ar) & (bp | bq | br) & ((ap ^ bp) | (aq ^ bq) | (ar ^ br))
}

// Whether eight bits of the table rule out every split with i and j own and c free. The places are those without i and
// j. No more than `reach` places to step to are looked at.
pub fn bad(t: &[u8], n: u32, places: u64, i: u32, j: u32, c: u32, reach: u32) -> bool
    requires { Wide n t.now × (i < n) × (j < n) × (c < n) × Off i places × Off j places }
    ensures { result ≡ true → RulesOut n (table_bit t.now) 2 (both i j) (single c) }
{
    let p: u32 = 1 << i;
    let q: u32 = 1 << j;
    let d: u32 = 1 << c;
    let here = places & off(c);
    let high = steps(n, p | q | d);
    let many = parts(n, high);
    let mut x: u32 = 0;
    for _v in 0..many.min(reach) {
        if clash(t, n, x, d, p, q) & here != 0 {
            return true;
        }
        x = next(n, high, x);
    }
    false
}
