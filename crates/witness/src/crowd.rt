// Many points and two offsets: a table's bits that show more columns than several first cells allow.
ghost use Rattle.std.specs.Prelude.{◌≡◌, ◌*◌, ◌^◌, ◌<◌, ◌≤◌, true, length, bit_or};
ghost use Rattle.bits.specs.Numbers.{bit};
ghost use Rattle.tables.specs.Table.{most_inputs, table_bit};
ghost use Rattle.tables.specs.Words.{WordAt};
ghost use Rattle.witness.specs.Witness.{RulesOut};
ghost use Rattle.witness.specs.Crowd.{column_over, Seen};

use bits::sets::{members, next, parts};
use tables::bit_at;
use tables::words::table_word;

// All the points that differ from `base` at positions of `own` alone, and two offsets.
#[derive(Clone, Copy, Debug, PartialEq, Eq)]
pub struct Crowd {
    pub base: u32,
    pub own: u16,
    pub e: u32,
    pub f: u32,
}

// The column of the point x over the offsets e and f, as a mask of that column alone. No branch hangs on what is read.
fn far(t: &[u8], n: u32, x: u32, e: u32, f: u32) -> u16
    requires { (n ≤ most_inputs) × (2 ^ n ≤ 8 * length t.now) × (x < 2 ^ n) × (e < 2 ^ n) × (f < 2 ^ n) }
    ensures { result ≡ 2 ^ column_over (table_bit t.now) e f x }
{
    let y = x ^ e;
    let here = bit_at(t, x) as u32;
    let by_e = bit_at(t, y) as u32;
    let by_f = bit_at(t, x ^ f) as u32;
    let by_both = bit_at(t, y ^ f) as u32;
    1 << (here + 2 * by_e + 4 * by_f + 8 * by_both)
}

// The same where the offsets stay in the point's word, which is read once.
fn near(t: &[u8], x: u32, e: u32, f: u32) -> u16
    requires { WordAt t.now x × (8 ≤ length t.now) × (e < 64) × (f < 64) }
    ensures { result ≡ 2 ^ column_over (table_bit t.now) e f x }
{
    let w = table_word(t, (x / 64) as usize);
    let at = x % 64;
    let by = at ^ e;
    1 << (((w >> at) & 1)
        + 2 * ((w >> by) & 1)
        + 4 * ((w >> (at ^ f)) & 1)
        + 8 * ((w >> (by ^ f)) & 1))
}

// The same of any offsets. `near` and `far` stay two functions: which one is quicker depends on the offsets, and one
// body for both would read the bits one by one where a word has them all.
fn mark(t: &[u8], n: u32, x: u32, e: u32, f: u32) -> u16
    requires { (n ≤ most_inputs) × (2 ^ n ≤ 8 * length t.now) × (x < 2 ^ n) × (e < 2 ^ n) × (f < 2 ^ n) }
    ensures { result ≡ 2 ^ column_over (table_bit t.now) e f x }
{
    if n >= 6 && e < 64 && f < 64 {
        near(t, x, e, f)
    } else {
        far(t, n, x, e, f)
    }
}

// The columns of all the points, as a mask.
fn seen(t: &[u8], n: u32, w: Crowd) -> u16
    requires { (n ≤ most_inputs) × (2 ^ n ≤ 8 * length t.now) × (w.base < 2 ^ n) × (w.own < 2 ^ n) × (w.e < 2 ^ n)
        × (w.f < 2 ^ n) }
    ensures { Seen n (table_bit t.now) w.own w.base w.e w.f result }
{
    let many = parts(n, w.own);
    let mut r: u16 = 0;
    let mut x: u32 = 0;
    for _v in 0..many {
        r |= mark(t, n, w.base ^ x, w.e, w.f);
        x = next(n, w.own, x);
    }
    r
}

// Whether the points and the offsets are a table's.
fn placed(n: u32, w: Crowd) -> bool
    requires { n ≤ most_inputs }
    ensures { result ≡ true → (w.base < 2 ^ n) × (w.own < 2 ^ n) × (w.e < 2 ^ n) × (w.f < 2 ^ n) }
{
    let all: u32 = 1 << n;
    w.base < all && (w.own as u32) < all && w.e < all && w.f < all
}

// Whether the points show more than m columns over the offsets.
pub fn shows_many(t: &[u8], n: u32, m: u32, w: Crowd) -> bool
    requires { (n ≤ most_inputs) × (2 ^ n ≤ 8 * length t.now) }
    ensures { result ≡ true → RulesOut n (table_bit t.now) m (bit w.own) (bit (bit_or w.e w.f)) }
{
    placed(n, w) && members(seen(t, n, w)) > m
}

// Whether the points from one of a few places on show more than m columns over the offsets.
pub fn many_somewhere(t: &[u8], n: u32, m: u32, own: u16, e: u32, f: u32) -> bool
    requires { (n ≤ most_inputs) × (2 ^ n ≤ 8 * length t.now) }
    ensures { result ≡ true → RulesOut n (table_bit t.now) m (bit own) (bit (bit_or e f)) }
{
    let all: u32 = 1 << n;
    let mut base: u32 = 0;
    for _place in 0..4 {
        let w = Crowd { base, own, e, f };
        if shows_many(t, n, m, w) {
            return true;
        }
        // A fifth of the largest table further, and odd, so that the places lie apart whatever n is.
        base = base.wrapping_sub(13721) & (all - 1);
    }
    false
}
