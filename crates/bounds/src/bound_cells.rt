// Asking for a lower bound on the cells of a table.
ghost use Rattle.std.specs.Prelude.{◌≡◌};
ghost use Rattle.sheets.specs.Edition.{IsEdition};
ghost use Rattle.bounds.specs.BoundCells.{bound_answer, bound_in, bound_outcome};

use crate::least::cell_bound;
use finding::find_best::find_form;
use refusals::form;
use refusals::verdicts::Refusal;
use sheets::kinds::Edition;

// The bound for cells of an edition.
fn bound_in(e: Edition, n: u64, k: u64, t: &[u8], work: &mut [u8]) -> Result<u32, Refusal>
    requires { IsEdition e }
    ensures { record { answer = bound_answer result; work = work.new } ≡ bound_in e n k t.now work.old }
{
    find_form(e, n, k, t, work)?;
    Ok(cell_bound(t, n as u32, k as u32, work))
}

// A number of cells of the edition with the number w: no network of fewer carries the table, wired in any way at all.
pub fn bound_cells(w: u64, n: u64, k: u64, t: &[u8], work: &mut [u8]) -> Result<u32, Refusal>
    ensures { record { answer = bound_answer result; work = work.new } ≡ bound_outcome w n k t.now work.old }
{
    form::told(w, n)?;
    bound_in(Edition::numbered(w), n, k, t, work)
}
