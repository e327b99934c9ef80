// The inputs' times as C hands them over.
ghost use Rattle.std.specs.Prelude.{◌≡◌};
ghost use Rattle.pelzurivan.specs.InputTimes.{time_of_kind, times_from_c};

use times::input_time::InputTime;

// Kind 1 is one arrival (first), 2 an earliest (first) and a latest (second), any other is not read. The struct is the
// header's: C hands over numbers for kinds, and three arrays.
#[repr(C)]
#[derive(Clone, Copy)]
pub struct TimesC {
    pub kind: [u8; 16],
    pub first: [f64; 16],
    pub second: [f64; 16],
}

fn time_of_kind(kind: u8, first: f64, second: f64) -> InputTime
    ensures { result ≡ time_of_kind kind first second }
{
    match kind {
        1 => InputTime::Arrival(first),
        2 => InputTime::Between(first, second),
        _ => InputTime::NotRead,
    }
}

// The same as the calls take them.
pub fn input_times(c: TimesC) -> [InputTime; 16]
    ensures { result ≡ times_from_c c }
{
    let mut times = [InputTime::NotRead; 16];
    for (j, time) in times.iter_mut().enumerate() {
        *time = time_of_kind(c.kind[j], c.first[j], c.second[j]);
    }
    times
}
