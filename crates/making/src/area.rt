// The work area: the table at hand in the first half, the next one in the second.
ghost use Rattle.std.specs.Prelude.{◌≡◌, ℕ, ◌+◌, ◌^◌, ◌<◌, ◌≤◌, length, get_or};
ghost use Rattle.bits.specs.Numbers.{bit};
ghost use Rattle.bits.specs.Sets.{size};
ghost use Rattle.tables.specs.Table.{most_inputs};
ghost use Rattle.splits.specs.Columns.{most_first};
ghost use Rattle.columns.specs.Reading.{Chart};
ghost use Rattle.making.specs.Area.{at_hand, next_inputs, NextStored, NextTable};
ghost use Rattle.tables.specs.Work.{half, work_length};

use bits::sets::parts;
use charts::pair::{h_byte, h_word};
use columns::split::Split;
use tables::fixed::byte_in;
use tables::{HALF, length_for};

// The first len bytes of H's table, with r first cells, into the second half: by words where nothing is shared and the
// free inputs make whole words, else byte by byte.
fn store_next(work: &mut [u8], s: Split, r: u32, seen: &[u16], len: usize)
    requires { (len ≤ half) × (work_length ≤ length work.old) × Chart s (at_hand work.old) (2 ^ r) seen.now
        × (r ≤ most_first) }
    ensures { NextStored s r len work.old work.new }
{
    let limit: usize = 1 << r;
    if s.shared == 0 && 64 <= parts(s.n, s.free) {
        let mut w: u64 = 0;
        for i in 0..len {
            if i % 8 == 0 {
                w = h_word(&work[..HALF], s, limit, seen, (i / 8) as u32);
            }
            work[HALF + i] = byte_in(w, i);
        }
        return;
    }
    for j in 0..len {
        work[HALF + j] = h_byte(&work[..HALF], s, limit, seen, j as u32);
    }
}

// The first len bytes of the second half, back to the first.
fn take_next(work: &mut [u8], len: usize)
    requires { (len ≤ half) × (work_length ≤ length work.old) }
    ensures { ((i : ℕ) → i < len → get_or work.new i 0 ≡ get_or work.old (half + i) 0)
        × (length work.new ≡ length work.old) }
{
    let (hand, next) = work.split_at_mut(HALF);
    hand[..len].copy_from_slice(&next[..len]);
}

// H becomes the table at hand, by the chart of the columns; it has m inputs.
pub fn next_table(work: &mut [u8], s: Split, r: u32, seen: &[u16], m: u32)
    requires { (work_length ≤ length work.old) × (m ≤ most_inputs) × (m ≡ next_inputs s r work.old)
        × Chart s (at_hand work.old) (2 ^ r) seen.now × (r ≤ most_first) }
    ensures { NextTable s r work.old work.new }
{
    let len = length_for(m);
    store_next(work, s, r, seen, len);
    take_next(work, len);
}
