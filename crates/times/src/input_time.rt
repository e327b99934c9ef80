// An input's time, in nanoseconds.
ghost use Rattle.std.specs.Prelude.{◌≡◌};
ghost use Rattle.times.specs.InputTimes.{in_range, plain_zero, sound_time, given, time_of};

// Not read; one arrival; an earliest and a latest.
#[derive(Clone, Copy)]
pub enum InputTime {
    NotRead,
    Arrival(f64),
    Between(f64, f64),
}

// A negative zero is taken as zero.
pub fn plain_zero(x: f64) -> f64
    ensures { result ≡ plain_zero x }
{
    if x == 0.0 { 0.0 } else { x }
}

// A number from 0 to 4,096.
pub fn in_range(x: f64) -> bool
    ensures { result ≡ in_range x }
{
    0.0 <= x && x <= 4096.0
}

// In range, and not crossed.
pub fn sound_time(t: InputTime) -> bool
    ensures { result ≡ sound_time t }
{
    match t {
        InputTime::NotRead => true,
        InputTime::Arrival(x) => in_range(x),
        InputTime::Between(x, y) => in_range(x) && in_range(y) && x <= y,
    }
}

pub fn is_given(t: InputTime) -> bool
    ensures { result ≡ given t }
{
    !matches!(t, InputTime::NotRead)
}

// The latest time (late), or the earliest; zero where there is none.
pub fn time_of(late: bool, t: InputTime) -> f64
    ensures { result ≡ time_of late t }
{
    match t {
        InputTime::NotRead => 0.0,
        InputTime::Arrival(x) => plain_zero(x),
        InputTime::Between(x, y) => plain_zero(if late { y } else { x }),
    }
}
