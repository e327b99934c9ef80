// The table over some of the inputs, the others fixed, 64 assignments at a time.
ghost use Rattle.std.specs.Prelude.{◌≡◌, Bool, ℕ, ◌+◌, ◌*◌, ◌/◌, ◌^◌, ◌<◌, ◌≤◌, length};
ghost use Rattle.bits.specs.Numbers.{bit, number};
ghost use Rattle.bits.specs.Sets.{word_positions, Apart, size, spread};
ghost use Rattle.tables.specs.Table.{most_inputs, table_bit};

use crate::words::bits_from;
use bits::patterns::{lower, upper};
use bits::sets::{members, next, spread_out};

// The bits of a word at the places that the mask's members below 6 make, side by side. From the lowest position on, the
// half where it is 1 goes, if it is a member, to the place behind the members so far, and else away.
fn squeeze(word: u64, mask: u16) -> u64
    ensures { result ≡ number (2 ^ size word_positions (bit mask)) (λ u. bit word (spread word_positions (bit mask) u)) }
{
    let m = mask as u64;
    let mut w = word;
    let mut k: u64 = 0;
    for j in 0..6u32 {
        let member = (m >> j) & 1;
        let moved = (upper(w, j) * member) >> ((1u64 << j) - (1u64 << k));
        w = lower(w, j) | moved;
        k += member;
    }
    w
}

// Word i of the table over the mask's inputs, the others as `at` has them. Each part of the mask's inputs from 6 on
// names a word of the table, and this gives as many bits as the mask has parts below 6.
pub fn word_over(t: &[u8], n: u32, mask: u16, at: u32, i: u32) -> u64
    requires { (2 ^ n ≤ 8 * length t.now) × (n ≤ most_inputs) × (mask < 2 ^ n) × (at < 2 ^ n) × Apart n (bit at) (bit mask)
        × (i < 2 ^ most_inputs) }
    ensures { result ≡ number 64 (λ j. table_bit t.now (at + spread n (bit mask) (64 * i + j))) }
{
    let few = members(mask % 64);
    let pieces: u32 = 64 >> few;
    let high = mask / 64 * 64;
    let mut f = spread_out(n, high, i * pieces);
    let mut r: u64 = 0;
    for q in 0..pieces {
        r += squeeze(bits_from(t, at + f), mask) << (q << few);
        f = next(n, high, f);
    }
    r
}

// Byte i of a table, of which w is the word that has it.
pub fn byte_in(w: u64, i: usize) -> u8
    ensures { (f : ℕ → Bool) → w ≡ number 64 (λ j. f (64 * (i / 8) + j)) → result ≡ number 8 (λ j. f (i * 8 + j)) }
{
    ((w >> (8 * (i % 8))) % 256) as u8
}
