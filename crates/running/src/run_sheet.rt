// Running a sheet at an assignment.
ghost use Rattle.std.specs.Prelude.{◌≡◌};
ghost use Rattle.sheets.specs.Edition.{IsEdition, first_edition};
ghost use Rattle.refusals.specs.Lines.{verdict};
ghost use Rattle.refusals.specs.Results.{verdict_of};
ghost use Rattle.running.specs.RunSheet.{run_lines, run_answer, run_outcome, run_own};

use records::desk::desk_of;
use refusals::form;
use refusals::verdicts::Refusal;
use runs::running::bit_of;
use sheets::kinds::Edition;

// Lines 1, 9, 10, 11 and 15.
fn run_form(e: Edition, d: u8, n: u64, s: &[u8], x: u64) -> Result<(), Refusal>
    requires { IsEdition e }
    ensures { verdict_of result ≡ verdict (run_lines e d n s.now x) }
{
    form::sheet_for(e, d, n, s)?;
    if 1 << n <= x {
        return Err(Refusal::Assignment);
    }
    form::all_read(e, d, n as u32, s)
}

// Runs a sheet of an edition, which is to be the desk d's, at the assignment x.
pub fn run_in(e: Edition, d: u8, n: u64, s: &[u8], x: u64) -> Result<bool, Refusal>
    requires { IsEdition e }
    ensures { run_answer result ≡ run_outcome e d n s.now x }
{
    run_form(e, d, n, s, x)?;
    let m = s.len() / e.size;
    Ok(bit_of(e, n as u32, s, m, x as u32))
}

// Runs a sheet of an edition, whatever its desk, at the assignment x.
pub fn run_own(e: Edition, n: u64, s: &[u8], x: u64) -> Result<bool, Refusal>
    requires { IsEdition e }
    ensures { run_answer result ≡ run_own e n s.now x }
{
    run_in(e, desk_of(e, s), n, s, x)
}

// Runs a sheet, whatever its desk, at the assignment x: the bit.
pub fn run_sheet(n: u64, s: &[u8], x: u64) -> Result<bool, Refusal>
    ensures { run_answer result ≡ run_own first_edition n s.now x }
{
    run_own(Edition::first(), n, s, x)
}
