// Whether the times of a gate's inputs are sound, and there where a cell reads them.
ghost use Rattle.std.specs.Prelude.{◌≡◌, not, ◌&&◌, ◌||◌, ◌*◌, ◌<◌, ◌≤◌, length};
ghost use Rattle.bits.specs.Numbers.{bit};
ghost use Rattle.bits.specs.Below.{every};
ghost use Rattle.tables.specs.Table.{most_inputs};
ghost use Rattle.sheets.specs.Edition.{IsEdition, most_records};
ghost use Rattle.sheets.specs.Sheet.{AllReadable};
ghost use Rattle.times.specs.InputTimes.{sound_time, given, time_at};
ghost use Rattle.settling.specs.Refusals.{input_sound};

use sheets::kinds::Edition;
use times::input_time::{InputTime, is_given, sound_time};
use unread::reading::who_reads;

// Whether what is said of input j is sound, and a time is given unless the mask of the signals that are read lacks it.
fn input_sound(read: u32, times: [InputTime; 16], j: usize) -> bool
    requires { j < most_inputs }
    ensures { result ≡ (sound_time (time_at times j) && (given (time_at times j) || not (bit read j))) }
{
    sound_time(times[j]) && (is_given(times[j]) || (read >> j) & 1 != 1)
}

// Whether what is said of each of the n inputs is sound, and a time is given where one of m cells reads it.
pub fn inputs_sound(e: Edition, n: u32, s: &[u8], m: usize, times: [InputTime; 16]) -> bool
    requires edition { IsEdition e × (m ≤ most_records) × (n ≤ most_inputs) × (e.size * m ≤ length s.now)
        × AllReadable e s.now m }
    requires le_m { 1 ≤ m }
    ensures { result ≡ every n (input_sound e s.now m times) }
{
    let read = who_reads(e, n, s, m).read;
    for j in 0..n as usize {
        if !input_sound(read, times, j) {
            return false;
        }
    }
    true
}
