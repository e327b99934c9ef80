// Running a sheet at an assignment, and rebuilding its table.
ghost use Rattle.std.specs.Prelude.{◌≡◌, ◌*◌, ◌^◌, ◌<◌, ◌≤◌, length};
ghost use Rattle.bits.specs.Numbers.{bit, number};
ghost use Rattle.tables.specs.Table.{most_inputs, table_length};
ghost use Rattle.sheets.specs.Network.{output};
ghost use Rattle.sheets.specs.Edition.{IsEdition, most_records};
ghost use Rattle.sheets.specs.Record.{byte_at, cell_of};
ghost use Rattle.runs.specs.Running.{input_at, Runnable};
ghost use Rattle.sheets.specs.Sheet.{AllReadable, sheet_bit, rebuilt};

use crate::words::sheet_word;
use bits::patterns::half;
use records::rules;
use sheets::kinds::Edition;
use tables::fixed::byte_in;
use tables::words::bits_from;

// The value of input j of a record's cell, where bit t of w is signal t; an input that the cell hasn't counts as 0.
fn value(e: Edition, b: &[u8], w: u32, j: u32) -> bool
    requires { Runnable e b.now }
    ensures { result ≡ input_at (byte_at b.now) (bit w) j }
{
    j < b[0] as u32 && (w >> b[j as usize + 1]) & 1 == 1
}

// The bit of the table t at the number that inputs 0 to 5 make: t is halved by input after input, until only that bit
// is left.
fn halved(e: Edition, b: &[u8], w: u32, t: u64) -> bool
    requires { Runnable e b.now }
    ensures { result ≡ bit t (number 6 (input_at (byte_at b.now) (bit w))) }
{
    let mut left = t;
    for j in 0..6 {
        left = half(left, j, value(e, b, w, j));
    }
    left != 0
}

// What the cell of a record gives: inputs 6 and 7 choose a word of its table, and the others a bit of that.
fn output_of(e: Edition, b: &[u8], w: u32) -> bool
    requires { Runnable e b.now }
    ensures { result ≡ output (cell_of e (byte_at b.now)) (bit w) }
{
    let high = value(e, b, w, 6) as u32 + 2 * (value(e, b, w, 7) as u32);
    halved(e, b, w, bits_from(&b[e.start..], 64 * high))
}

// What a sheet of m records gives at the assignment x. The word holds the signals so far: the inputs, then each
// record's output.
pub fn bit_of(e: Edition, n: u32, s: &[u8], m: usize, x: u32) -> bool
    requires edition { IsEdition e × (m ≤ most_records) × (n ≤ most_inputs) × (e.size * m ≤ length s.now)
        × AllReadable e s.now m }
    requires x_bound { x < 2 ^ n }
    ensures { result ≡ sheet_bit e n s.now m x }
{
    let mut w = x;
    let mut o = false;
    for i in 0..m {
        o = output_of(e, rules::record_of(e, s, i), w);
        w += (o as u32) << (n + i as u32);
    }
    o
}

// The table of a sheet of m records, into a lent one of its length, which is written whole.
pub fn rebuild(e: Edition, n: u32, s: &[u8], m: usize, out: &mut [u8])
    requires edition { IsEdition e × (m ≤ most_records) × (n ≤ most_inputs) × (e.size * m ≤ length s.now)
        × AllReadable e s.now m }
    requires out_len { length out.old ≡ table_length n }
    ensures { out.new ≡ rebuilt e n s.now m }
{
    let mut o: u64 = 0;
    for (i, byte) in out.iter_mut().enumerate() {
        if i % 8 == 0 {
            o = sheet_word(e, n, s, m, (i / 8) as u32);
        }
        *byte = byte_in(o, i);
    }
}
