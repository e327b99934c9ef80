// Setting inputs aside: the table over some of the inputs, the others at 0.
ghost use Rattle.std.specs.Prelude.{◌≡◌, ◌++◌, ◌*◌, ◌^◌, ◌<◌, ◌≤◌, length, drop};
ghost use Rattle.bits.specs.Numbers.{bit, number};
ghost use Rattle.bits.specs.Sets.{size, spread};
ghost use Rattle.tables.specs.Table.{most_inputs, table_length, table_bit, bytes_of};
ghost use Rattle.tables.specs.Counting.{table_over};

use crate::fixed::{byte_in, word_over};
use crate::length_for;
use bits::sets::{members, spread_out};

// The first len bytes of the table over the mask's inputs, into the front of a lent room.
fn pack(t: &[u8], n: u32, mask: u16, len: usize, room: &mut [u8])
    requires { (2 ^ n ≤ 8 * length t.now) × (n ≤ most_inputs) × (mask < 2 ^ n) × (len ≤ 2 ^ most_inputs)
        × (len ≤ length room.old) }
    ensures { room.new
        ≡ bytes_of len (λ v. table_bit t.now (spread n (bit mask) v)) ++ drop len room.old }
{
    let mut w: u64 = 0;
    for (i, byte) in room[..len].iter_mut().enumerate() {
        if i % 8 == 0 {
            w = word_over(t, n, mask, 0, (i / 8) as u32);
        }
        *byte = byte_in(w, i);
    }
}

// The table over the mask's inputs, into the front of a lent room; where the mask has them all, that is the table
// itself.
pub fn set_aside(t: &[u8], n: u32, mask: u16, room: &mut [u8])
    requires { (length t.now ≡ table_length n) × (n ≤ most_inputs) × (mask < 2 ^ n) × (length t.now ≤ length room.old) }
    ensures { number (2 ^ size n (bit mask)) (table_bit room.new)
        ≡ table_over n (bit mask) (table_bit t.now) }
{
    let all: u32 = (1 << n) - 1;
    if mask as u32 == all {
        room[..t.len()].copy_from_slice(t);
        return;
    }
    pack(t, n, mask, length_for(members(mask)), room);
}

// A mask over the inputs that were not set aside, in the positions of all.
pub fn spread_mask(n: u32, mask: u16, part: u16) -> u16
    requires { n ≤ most_inputs }
    ensures { result ≡ spread n (bit mask) part }
{
    spread_out(n, mask, part as u32) as u16
}
