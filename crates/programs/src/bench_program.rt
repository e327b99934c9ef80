// The bench program but for its reading and writing: n, K and the table come in as bytes, and the answer number and
// the sheet go out.
ghost use Rattle.std.specs.Prelude.{◌≡◌, ◌≤◌, length, get_or, take, drop};
ghost use Rattle.tables.specs.Work.{work_length};
ghost use Rattle.programs.specs.BenchProgram.{most_written, program_outcome};

use bench::make_sheet::make_sheet;
use refusals::verdicts::number_of;
use sheets::kinds::Sheet;
use tables::{HALF, clear};

// n, K, the longest table and one byte more: a table with that byte has a wrong length, however long it is.
pub const MOST_READ: usize = 2 + HALF + 1;
// The answer number and the longest sheet.
pub const MOST_WRITTEN: usize = 1 + Sheet::BYTES;

// Byte i of s, or 0 where s ends before it.
pub fn byte_or_zero(s: &[u8], i: usize) -> u64
    ensures { result ≡ get_or s.now i 0 }
{
    s.get(i).map_or(0, |byte| u64::from(*byte))
}

// Where s is cut after its first i bytes: at its end if it has fewer.
pub fn cut_at(s: &[u8], i: usize) -> usize
    ensures { (result ≤ length s.now)
        × (take result s.now ≡ take i s.now)
        × (drop result s.now ≡ drop i s.now) }
{
    i.min(s.len())
}

// Answers the input into the first bytes of out; how many they are. Both rooms are cleared first, so that nothing of
// what they held matters.
pub fn answer_input(input: &[u8], out: &mut [u8], work: &mut [u8]) -> usize
    requires { (length out.old ≡ most_written) × (length work.old ≡ work_length) }
    ensures { record { count = result; out = out.new; work = work.new } ≡ program_outcome input.now }
{
    clear(out);
    clear(work);
    let n = byte_or_zero(input, 0);
    let k = byte_or_zero(input, 1);
    let start = cut_at(input, 2);
    let made = make_sheet(n, k, &input[start..], &mut out[1..], work);
    out[0] = number_of(&made);
    1 + Sheet::RECORD * made.unwrap_or(0)
}
