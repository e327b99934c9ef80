// Times as whole numbers of sixteenths.
ghost use Rattle.std.specs.Prelude.{◌≡◌, ◌≤◌, true, false};
ghost use Rattle.std.specs.Float.Ieee.Exact.{HasValue};
ghost use Rattle.bits.specs.Below.{every};
ghost use Rattle.tables.specs.Table.{most_inputs};
ghost use Rattle.times.specs.InputTimes.{in_range, sound_time, time_at};
ghost use Rattle.times.specs.Sixteenths.{sixteenths_of, in_sixteenths, time_in_sixteenths, deadline_ok};

use crate::input_time::{InputTime, plain_zero};

// How many sixteenths a time in sixteenths has.
pub fn count_of(x: f64) -> u64
    requires { HasValue x false (sixteenths_of x) 16 × (sixteenths_of x ≤ 1048576) }
    ensures { result ≡ sixteenths_of x }
{
    std::num::truncating_f64_to_u64(x * 16.0)
}

// Whether a time is a whole number of sixteenths: nothing is lost on the way to a whole number and back.
pub fn in_sixteenths(x: f64) -> bool
    requires { in_range x ≡ true }
    ensures { result ≡ in_sixteenths x }
{
    let y = plain_zero(x) * 16.0;
    std::num::nearest_u64_to_f64(std::num::truncating_f64_to_u64(y)) == y
}

// Whether those that are said of an input are.
fn time_in_sixteenths(t: InputTime) -> bool
    requires { sound_time t ≡ true }
    ensures { result ≡ time_in_sixteenths t }
{
    match t {
        InputTime::NotRead => true,
        InputTime::Arrival(x) => in_sixteenths(x),
        InputTime::Between(x, y) => in_sixteenths(x) && in_sixteenths(y),
    }
}

// Whether that holds of each of the n inputs.
pub fn inputs_in_sixteenths(n: u32, times: [InputTime; 16]) -> bool
    requires { (n ≤ most_inputs) × (every n (λ j. sound_time (time_at times j)) ≡ true) }
    ensures { result ≡ every n (λ j. time_in_sixteenths (time_at times j)) }
{
    for j in 0..n as usize {
        if !time_in_sixteenths(times[j]) {
            return false;
        }
    }
    true
}

// Whether a deadline is from -1,048,576 to 1,048,576.
pub fn deadline_ok(deadline: i64) -> bool
    ensures { result ≡ deadline_ok deadline }
{
    -1048576 <= deadline && deadline <= 1048576
}
