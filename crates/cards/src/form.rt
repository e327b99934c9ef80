// Lines that a load and a run share: 1, 9, 10 and 15 of a sheet for a desk.
ghost use Rattle.std.specs.Prelude.{◌≡◌};
ghost use Rattle.refusals.specs.Results.{verdict_of};
ghost use Rattle.refusals.specs.Lines.{verdict};
ghost use Rattle.cards.specs.Refusals.{filed_lines};

use refusals::form;
use refusals::verdicts::Refusal;
use sheets::kinds::Edition;

// Lines 1, 9, 10 and 15 of a sheet for desk d and n inputs.
pub fn filed(d: u8, n: u64, s: &[u8]) -> Result<(), Refusal>
    ensures { verdict_of result ≡ verdict (filed_lines d n s.now) }
{
    if form::bad_inputs(n) {
        return Err(Refusal::Inputs);
    }
    form::read_sheet(Edition::first(), d, n as u32, s)
}
