// Checking a sheet, whoever made it, against a gate's table.
ghost use Rattle.std.specs.Prelude.{◌≡◌};
ghost use Rattle.sheets.specs.Edition.{IsEdition, first_edition};
ghost use Rattle.refusals.specs.Results.{verdict_of};
ghost use Rattle.inspection.specs.CheckSheet.{check_outcome, check_own};

use records::desk::desk_of;
use refusals::form;
use refusals::verdicts::Refusal;
use runs::checking::first_difference;
use sheets::kinds::Edition;

// Checks a sheet of an edition, which is to be the desk d's, against a table.
pub fn check_in<'a>(e: Edition, d: u8, n: u64, t: &'a [u8], s: &'a [u8]) -> Result<(), Refusal>
    requires { IsEdition e }
    ensures { verdict_of result ≡ check_outcome e d n t.now s.now }
{
    form::table(n, t)?;
    let inputs = n as u32;
    form::sheet(e, d, inputs, s)?;
    if let Some(x) = first_difference(e, inputs, s, s.len() / e.size, t) {
        return Err(Refusal::Differs(x));
    }
    form::all_read(e, d, inputs, s)
}

// Checks a sheet of an edition, whatever its desk, against a table.
pub fn check_own<'a>(e: Edition, n: u64, t: &'a [u8], s: &'a [u8]) -> Result<(), Refusal>
    requires { IsEdition e }
    ensures { verdict_of result ≡ check_own e n t.now s.now }
{
    check_in(e, desk_of(e, s), n, t, s)
}

// Checks a sheet against a table: accepted, or why not.
pub fn check_sheet<'a>(n: u64, t: &'a [u8], s: &'a [u8]) -> Result<(), Refusal>
    ensures { verdict_of result ≡ check_own first_edition n t.now s.now }
{
    check_own(Edition::first(), n, t, s)
}
