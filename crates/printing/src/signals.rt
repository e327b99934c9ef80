// The writer of a signal: a letter or a cell, each side of a cell by the same rule again.
ghost use Rattle.std.specs.Prelude.{[], ◌∷◌, ◌+◌, ◌<◌, ◌≤◌, length};
ghost use Rattle.sheets.specs.Sheet.{records, sheet_cells};
ghost use Rattle.printing.specs.Print.{flipped_text, printed};
ghost use Rattle.printing.specs.Put.{Put, Room};

use crate::pairs::{PlainCell, form_of, pair_of};
use sheets::kinds::Edition;

// One byte at a place of the room; the place after it.
fn put(room: &mut [u8], at: usize, b: u8) -> usize
    requires { at < length room.old }
    ensures { Put room.old at (b ∷ []) room.new result }
{
    room[at] = b;
    at + 1
}

// `!` or nothing.
fn put_flip(room: &mut [u8], at: usize, flip: bool) -> usize
    requires { at + length (flipped_text flip []) ≤ length room.old }
    ensures { Put room.old at (flipped_text flip []) room.new result }
{
    if flip {
        return put(room, at, b'!');
    }
    at
}

// Signal x, with `!` before it if it is flipped; a cell calls the writer on the lower signals that it reads.
pub fn write(
    e: Edition,
    n: usize,
    s: &[u8],
    x: usize,
    flip: bool,
    room: &mut [u8],
    at: usize,
) -> usize
    requires { Room e n s.now x flip room.old at }
    ensures { Put room.old at
        (flipped_text flip (printed n (sheet_cells e s.now (records e s.now)) x))
        room.new result }
{
    let from = put_flip(room, at, flip);
    if x < n {
        return put(room, from, b'a' + x as u8);
    }
    match pair_of(e, s, x - n) {
        PlainCell::One { signal, table } => match table {
            0 => put(room, from, b'0'),
            3 => put(room, from, b'1'),
            _ => write(e, n, s, signal, table == 1, room, from),
        },
        PlainCell::Two { low, high, table } => {
            let Some(form) = form_of(table) else {
                unreachable!()
            };
            let left = put(room, from, b'(');
            let middle = write(e, n, s, low, form.not_low, room, left);
            let right = put(room, middle, form.mark);
            let end = write(e, n, s, high, form.not_high, room, right);
            put(room, end, b')')
        }
    }
}
