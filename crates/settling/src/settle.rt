// When does the gate settle?
ghost use Rattle.std.specs.Prelude.{◌≡◌, ◌≤◌};
ghost use Rattle.tables.specs.Table.{most_inputs};
ghost use Rattle.sheets.specs.Edition.{IsEdition, first_edition};
ghost use Rattle.sheets.specs.Sheet.{records};
ghost use Rattle.times.specs.Reading.{Timed};
ghost use Rattle.times.specs.Signals.{settled};
ghost use Rattle.refusals.specs.Results.{verdict_of};
ghost use Rattle.refusals.specs.Lines.{verdict};
ghost use Rattle.settling.specs.Settle.{settle_answer, settle_lines, settle_outcome, settle_own};

use crate::reading::inputs_sound;
use records::desk::desk_of;
use refusals::form;
use refusals::verdicts::Refusal;
use sheets::kinds::Edition;
use times::input_time::{InputTime, in_range, plain_zero};
use times::signals::{output_time, times_of_inputs};

// The output's earliest and latest time.
#[derive(Clone, Copy, Debug, PartialEq)]
pub struct Settled {
    pub earliest: f64,
    pub latest: f64,
}

// Lines 1, 9, 10 and 13.
fn settle_form(
    e: Edition,
    d: u8,
    n: u64,
    s: &[u8],
    delay: f64,
    times: [InputTime; 16],
) -> Result<(), Refusal>
    requires { IsEdition e }
    ensures { verdict_of result ≡ verdict (settle_lines e d n s.now delay times) }
{
    form::sheet_for(e, d, n, s)?;
    if !in_range(delay) {
        return Err(Refusal::Time);
    }
    let m = s.len() / e.size;
    if !inputs_sound(e, n as u32, s, m, times) {
        return Err(Refusal::Time);
    }
    Ok(())
}

// The output's latest time (late), or its earliest.
fn settle_at(late: bool, e: Edition, n: u32, s: &[u8], delay: f64, times: [InputTime; 16]) -> f64
    requires { Timed e s.now (records e s.now) × (n ≤ most_inputs) }
    ensures { result ≡ settled late e n s.now delay times }
{
    let inputs = times_of_inputs(late, n, times);
    let m = s.len() / e.size;
    output_time(e, n, s, m, late, plain_zero(delay), inputs)
}

// Settles a sheet of an edition, which is to be the desk d's.
pub fn settle_in(
    e: Edition,
    d: u8,
    n: u64,
    s: &[u8],
    delay: f64,
    times: [InputTime; 16],
) -> Result<Settled, Refusal>
    requires { IsEdition e }
    ensures { settle_answer result ≡ settle_outcome e d n s.now delay times }
{
    settle_form(e, d, n, s, delay, times)?;
    let inputs = n as u32;
    Ok(Settled {
        earliest: settle_at(false, e, inputs, s, delay, times),
        latest: settle_at(true, e, inputs, s, delay, times),
    })
}

// The output's earliest and latest time, from each input's time and one delay for all cells.
pub fn settle(n: u64, s: &[u8], delay: f64, times: [InputTime; 16]) -> Result<Settled, Refusal>
    ensures { settle_answer result ≡ settle_own first_edition n s.now delay times }
{
    let e = Edition::first();
    settle_in(e, desk_of(e, s), n, s, delay, times)
}
