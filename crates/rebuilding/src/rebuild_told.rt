// Rebuilding a table from a sheet of a told edition.
ghost use Rattle.std.specs.Prelude.{◌≡◌};
ghost use Rattle.rebuilding.specs.RebuildTold.{rebuild_told};
ghost use Rattle.refusals.specs.Results.{verdict_of};

use crate::rebuild_table::rebuild_own;
use refusals::form;
use refusals::verdicts::Refusal;
use sheets::kinds::Edition;

// Rebuilds the table of a sheet of the edition with the number w, whatever its desk, into a lent one.
pub fn rebuild_told(w: u64, n: u64, s: &[u8], table: &mut [u8]) -> Result<(), Refusal>
    ensures { record { verdict = verdict_of result; table = table.new }
        ≡ rebuild_told w n s.now table.old }
{
    form::told(w, n)?;
    rebuild_own(Edition::numbered(w), n, s, table)
}
