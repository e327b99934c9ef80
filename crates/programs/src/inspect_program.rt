// The inspecting program but for its reading and writing: n, the table and the sheet come in as bytes, and the answer
// number and the place go out in decimal.
ghost use Rattle.std.specs.Prelude.{◌≡◌, ◌≤◌, length};
ghost use Rattle.tables.specs.Table.{most_inputs, table_length};
ghost use Rattle.refusals.specs.Lent.{into};
ghost use Rattle.refusals.specs.Results.{verdict_of};
ghost use Rattle.programs.specs.InspectProgram.{decimal, inspected, most_written, program_outcome};

use crate::bench_program::{byte_or_zero, cut_at};
use inspection::check_sheet::check_sheet;
use refusals::verdicts::{Refusal, number_of, place_of};
use sheets::kinds::Sheet;
use tables::{HALF, MOST_INPUTS, clear, length_for};

// n, the longest table, the longest sheet and one byte more: with that byte the sheet is too long, however long it is.
pub const MOST_READ: usize = 1 + HALF + Sheet::BYTES + 1;
// The digits of a byte, a space and those of a u64.
pub const MOST_WRITTEN: usize = 24;

// How many bytes the table of n inputs has; where n is too large any number will do, since that is refused first.
fn table_bytes(n: u64) -> usize
    ensures { n ≤ most_inputs → result ≡ table_length n }
{
    if n > MOST_INPUTS as u64 {
        0
    } else {
        length_for(n as u32)
    }
}

// Checks the sheet in the input against the table in it.
fn inspect(input: &[u8]) -> Result<(), Refusal>
    ensures { verdict_of result ≡ inspected input.now }
{
    let n = byte_or_zero(input, 0);
    let start = cut_at(input, 1);
    let rest = &input[start..];
    let end = cut_at(rest, table_bytes(n));
    check_sheet(n, &rest[..end], &rest[end..])
}

// Writes x in decimal into the first bytes of out; how many they are. Not by `write!`: it promises nothing of a write
// that fails, and doesn't promise that none does; what stands in out has to be known either way.
fn write_decimal(x: u64, out: &mut [u8]) -> usize
    requires { length (decimal x) ≤ length out.old }
    ensures { (result ≡ length (decimal x)) × (out.new ≡ into (decimal x) out.old) }
{
    if x < 10 {
        out[0] = b'0' + x as u8;
        return 1;
    }
    let k = write_decimal(x / 10, out);
    out[k] = b'0' + (x % 10) as u8;
    k + 1
}

// Answers the input into the first bytes of out; how many they are. The room is cleared first, so that nothing of what
// it held matters.
pub fn answer_input(input: &[u8], out: &mut [u8]) -> usize
    requires { length out.old ≡ most_written }
    ensures { record { count = result; out = out.new } ≡ program_outcome input.now }
{
    clear(out);
    let answer = inspect(input);
    let number = write_decimal(number_of(&answer) as u64, out);
    out[number] = b' ';
    let place = write_decimal(place_of(&answer), &mut out[number + 1..]);
    number + 1 + place
}
