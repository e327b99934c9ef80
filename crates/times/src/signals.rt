// The times of the signals of a sheet, cell by cell.
ghost use Rattle.std.specs.Prelude.{◌≡◌, ℕ, ◌≤◌, length, get_or, replicate, slice_index_or};
ghost use Rattle.tables.specs.Table.{most_inputs};
ghost use Rattle.sheets.specs.Record.{byte_at, cell_of};
ghost use Rattle.sheets.specs.Sheet.{sheet_cells};
ghost use Rattle.times.specs.InputTimes.{zero_time, input_times};
ghost use Rattle.times.specs.Reading.{Timeable, Timed, most_signals};
ghost use Rattle.times.specs.Signals.{keeping, delayed, cell_time, output_time};

use crate::input_time::{InputTime, time_of};
use records::rules::record_of;
use sheets::kinds::Edition;

// Signal j settles at the time at place j.
#[derive(Clone, Copy)]
pub struct SignalTimes {
    pub times: [f64; SignalTimes::MOST],
}

impl SignalTimes {
    // 16 inputs and 15 cells
    pub const MOST: usize = 31;

    pub fn zeros() -> SignalTimes
        ensures { result.times ≡ replicate most_signals zero_time }
    {
        SignalTimes {
            times: [0.0; SignalTimes::MOST],
        }
    }
}

// The greater (late), or the lesser. `late` picks the end of an input's time as well as which of two is kept, and what is
// meant (`settled`) is said of it: a function to keep by would have to travel beside it.
fn keep(late: bool, x: f64, y: f64) -> f64
    ensures { result ≡ keeping late x y }
{
    let passed = if late { x < y } else { y < x };
    if passed { y } else { x }
}

// The times of n inputs; zero for every other signal.
pub fn times_of_inputs(late: bool, n: u32, said: [InputTime; 16]) -> SignalTimes
    requires { n ≤ most_inputs }
    ensures { (length result.times ≡ most_signals) × ((j : ℕ) → slice_index_or result.times j zero_time ≡ input_times late n said j) }
{
    let mut signals = SignalTimes::zeros();
    for j in 0..n as usize {
        signals.times[j] = time_of(late, said[j]);
    }
    signals
}

// When the cell of a record settles.
fn cell_time(e: Edition, b: &[u8], late: bool, delay: f64, signals: SignalTimes) -> f64
    requires { Timeable e b.now × (length signals.times ≡ most_signals) }
    ensures { result ≡ cell_time (keeping late) (delayed delay) (cell_of e (byte_at b.now))
        (λ t. get_or signals.times t zero_time) }
{
    let k = b[0] as usize;
    let first = b[1] as usize;
    let mut time = signals.times[first];
    for j in 1..k {
        let t = b[j + 1] as usize;
        time = keep(late, time, signals.times[t]);
    }
    time + delay
}

// When the output of a sheet of m records settles.
pub fn output_time(
    e: Edition,
    n: u32,
    s: &[u8],
    m: usize,
    late: bool,
    delay: f64,
    inputs: SignalTimes,
) -> f64
    requires { Timed e s.now m × (n ≤ most_inputs) × (length inputs.times ≡ most_signals) }
    ensures { result ≡ output_time (keeping late) (delayed delay) zero_time n (sheet_cells e s.now m)
        (λ t. get_or inputs.times t zero_time) }
{
    let mut signals = inputs;
    let mut time = 0.0;
    for i in 0..m {
        time = cell_time(e, record_of(e, s, i), late, delay, signals);
        signals.times[n as usize + i] = time;
    }
    time
}
