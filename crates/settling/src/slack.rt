// The slack: how much earlier than a deadline the output settles.
ghost use Rattle.std.specs.Prelude.{◌≡◌, true, [], ◌∷◌, ◌≤◌};
ghost use Rattle.bits.specs.Below.{every};
ghost use Rattle.tables.specs.Table.{most_inputs};
ghost use Rattle.sheets.specs.Edition.{IsEdition, first_edition};
ghost use Rattle.times.specs.InputTimes.{in_range, sound_time, time_at};
ghost use Rattle.refusals.specs.Results.{verdict_of};
ghost use Rattle.refusals.specs.Lines.{verdict};
ghost use Rattle.settling.specs.Refusals.{bad_slack};
ghost use Rattle.settling.specs.Slack.{slack_answer, slack_outcome, slack_own};

use crate::settle::settle_in;
use records::desk::desk_of;
use refusals::verdicts::Refusal;
use sheets::kinds::Edition;
use times::input_time::InputTime;
use times::sixteenths::{count_of, deadline_ok, in_sixteenths, inputs_in_sixteenths};

// Line 14.
fn slack_form(n: u32, delay: f64, times: [InputTime; 16], deadline: i64) -> Result<(), Refusal>
    requires { (n ≤ most_inputs) × (in_range delay ≡ true) × (every n (λ j. sound_time (time_at times j)) ≡ true) }
    ensures { verdict_of result ≡ verdict (bad_slack n delay times deadline ∷ []) }
{
    if in_sixteenths(delay) && inputs_in_sixteenths(n, times) && deadline_ok(deadline) {
        Ok(())
    } else {
        Err(Refusal::Slack)
    }
}

// The slack of a sheet of an edition, which is to be the desk d's, in sixteenths.
pub fn slack_in(
    e: Edition,
    d: u8,
    n: u64,
    s: &[u8],
    delay: f64,
    times: [InputTime; 16],
    deadline: i64,
) -> Result<i64, Refusal>
    requires { IsEdition e }
    ensures { slack_answer result ≡ slack_outcome e d n s.now delay times deadline }
{
    let settled = settle_in(e, d, n, s, delay, times)?;
    slack_form(n as u32, delay, times, deadline)?;
    Ok(deadline - (count_of(settled.latest) as i64))
}

// A deadline in sixteenths less the output's latest time.
pub fn slack(
    n: u64,
    s: &[u8],
    delay: f64,
    times: [InputTime; 16],
    deadline: i64,
) -> Result<i64, Refusal>
    ensures { slack_answer result ≡ slack_own first_edition n s.now delay times deadline }
{
    let e = Edition::first();
    slack_in(e, desk_of(e, s), n, s, delay, times, deadline)
}
