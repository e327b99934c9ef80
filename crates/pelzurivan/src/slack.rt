// The slack, for C.
ghost use Rattle.std.specs.Prelude.{◌≡◌};
ghost use Rattle.sheets.specs.Edition.{first_edition};
ghost use Rattle.settling.specs.Slack.{slack_own, slack_answer};
ghost use Rattle.pelzurivan.specs.InputTimes.{times_from_c};
ghost use Rattle.pelzurivan.specs.Slack.{slack_c};

use crate::input_times::{TimesC, input_times};
use refusals::verdicts::Refusal;
use settling::slack::slack;

// The number, the first bad record, the slack in sixteenths.
#[repr(C)]
#[derive(Clone, Copy)]
pub struct SlackC {
    pub number: u64,
    pub index: u64,
    pub slack: i64,
}

impl From<Result<i64, Refusal>> for SlackC {
    ghost from_gives = { λ answer c. c ≡ slack_c (slack_answer answer) };

    fn from(answer: Result<i64, Refusal>) -> SlackC {
        match answer {
            Ok(slack) => SlackC {
                number: 0,
                index: 0,
                slack: slack,
            },
            Err(why) => SlackC {
                number: why.number() as u64,
                index: why.place(),
                slack: 0,
            },
        }
    }
}

// A deadline in sixteenths less the output's latest time.
#[unsafe(no_mangle)]
pub extern "C" fn pelzurivan_slack(n: u64, s: &[u8], delay: f64, c: TimesC, deadline: i64) -> SlackC
    ensures { result ≡ slack_c (slack_own first_edition n s.now delay (times_from_c c) deadline) }
{
    SlackC::from(slack(n, s, delay, input_times(c), deadline))
}
