// A table's bits 64 at a time: a word, and the one short word of a table of fewer bits.
ghost use Rattle.std.specs.Prelude.{◌≡◌, ℕ, ◌+◌, ◌*◌, ◌%◌, ◌^◌, ◌<◌, ◌≤◌, length};
ghost use Rattle.bits.specs.Numbers.{bit, number};
ghost use Rattle.tables.specs.Table.{table_bit};
ghost use Rattle.tables.specs.Words.{table_word, WordAt};

use crate::length_for;

// The number that some bytes make, the first as its lowest. With eight bytes this is one load.
fn joined(t: &[u8], from: usize, count: usize) -> u64
    requires { (from + count ≤ length t.now) × (count ≤ 8) }
    ensures { result ≡ number (8 * count) (λ k. table_bit t.now (8 * from + k)) }
{
    let mut r: u64 = 0;
    for i in 0..count {
        r += (t[from + i] as u64) << (8 * i);
    }
    r
}

// Word w.
pub fn table_word(t: &[u8], w: usize) -> u64
    requires { 8 * w + 8 ≤ length t.now }
    ensures { result ≡ table_word t.now w }
{
    joined(t, 8 * w, 8)
}

// The first 2 ^ k bits of a table, fewer than a word has.
pub fn short_word(t: &[u8], k: usize) -> u64
    requires { (k < 6) × (2 ^ k ≤ 8 * length t.now) }
    ensures { result ≡ number (2 ^ k) (table_bit t.now) }
{
    let word = joined(t, 0, length_for(k as u32));
    let bits: u64 = 1 << k;
    let end: u64 = 1 << bits;
    word % end
}

// The bits from the assignment p on, as far as p's word goes. A table of fewer than eight bytes is one short word.
pub fn bits_from(t: &[u8], p: u32) -> u64
    requires { WordAt t.now p }
    ensures { (k : ℕ) → p % 64 + k < 64 → bit result k ≡ table_bit t.now (p + k) }
{
    let many = t.len();
    if many < 8 {
        return joined(t, 0, many) >> (p % 64);
    }
    joined(t, (8 * (p / 64)) as usize, 8) >> (p % 64)
}
