// Rebuilding a table from a sheet.
ghost use Rattle.std.specs.Prelude.{◌≡◌};
ghost use Rattle.sheets.specs.Edition.{IsEdition, first_edition};
ghost use Rattle.refusals.specs.Results.{verdict_of};
ghost use Rattle.refusals.specs.Lines.{verdict};
ghost use Rattle.rebuilding.specs.RebuildTable.{rebuild_lines, rebuild_outcome, rebuild_own};

use records::desk::desk_of;
use refusals::form;
use refusals::verdicts::Refusal;
use runs::running::rebuild;
use sheets::kinds::Edition;

// Lines 1, 3, 9, 10 and 15.
fn rebuild_form<'a>(e: Edition, d: u8, n: u64, s: &'a [u8], table: &'a [u8]) -> Result<(), Refusal>
    requires { IsEdition e }
    ensures { verdict_of result ≡ verdict (rebuild_lines e d n s.now table.now) }
{
    form::sized(n, table)?;
    form::read_sheet(e, d, n as u32, s)
}

// Rebuilds the table of a sheet of an edition, which is to be the desk d's, into a lent one, which is written whole.
pub fn rebuild_in(e: Edition, d: u8, n: u64, s: &[u8], table: &mut [u8]) -> Result<(), Refusal>
    requires { IsEdition e }
    ensures { record { verdict = verdict_of result; table = table.new }
        ≡ rebuild_outcome e d n s.now table.old }
{
    rebuild_form(e, d, n, s, table)?;
    let m = s.len() / e.size;
    rebuild(e, n as u32, s, m, table);
    Ok(())
}

// Rebuilds the table of a sheet of an edition, whatever its desk, into a lent one.
pub fn rebuild_own(e: Edition, n: u64, s: &[u8], table: &mut [u8]) -> Result<(), Refusal>
    requires { IsEdition e }
    ensures { record { verdict = verdict_of result; table = table.new }
        ≡ rebuild_own e n s.now table.old }
{
    rebuild_in(e, desk_of(e, s), n, s, table)
}

// Rebuilds the table of a sheet, whatever its desk, into a lent one.
pub fn rebuild_table(n: u64, s: &[u8], table: &mut [u8]) -> Result<(), Refusal>
    ensures { record { verdict = verdict_of result; table = table.new }
        ≡ rebuild_own first_edition n s.now table.old }
{
    rebuild_own(Edition::first(), n, s, table)
}
