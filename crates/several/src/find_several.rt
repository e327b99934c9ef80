// Finding the best split with several first cells.
ghost use Rattle.std.specs.Prelude.{◌≡◌, ◌≤◌, length};
ghost use Rattle.tables.specs.Table.{most_inputs, table_length};
ghost use Rattle.sheets.specs.Edition.{first_edition};
ghost use Rattle.tables.specs.Work.{work_length};
ghost use Rattle.refusals.specs.Lines.{verdict, reply};
ghost use Rattle.several.specs.FindSeveral.{several_answer, best_several, several_says, several_done, several_not};
ghost use Rattle.several.specs.FindSeveral.{find_several_outcome};

use choices::counted::find_over;
use choices::over::Chosen;
use finding::find_best::find_form;
use refusals::verdicts::Refusal;
use sheets::kinds::Edition;
use tables::counting::counting_inputs;

// Lines 7 and 8: the best over 1, 2 and 3 first cells, or that at most k inputs count, or that none is possible.
fn search(n: u32, k: u32, t: &[u8], work: &mut [u8]) -> Result<Chosen, Refusal>
    requires { (n ≤ most_inputs) × (k ≤ most_inputs) × (length t.now ≡ table_length n)
        × (work_length ≤ length work.old) }
    ensures { record { answer = several_answer result; work = work.new }
        ≡ reply (verdict (several_says n k t.now))
        (several_done (best_several n k t.now) work.old) (several_not work.old) }
{
    let counting = counting_inputs(t, n);
    if counting.many <= k {
        return Err(Refusal::Nothing);
    }
    find_over(t, n, counting, k, work).ok_or(Refusal::NoSplit)
}

// Finds the best split with 1, 2 or 3 first cells: how many, and two masks.
pub fn find_several(n: u64, k: u64, t: &[u8], work: &mut [u8]) -> Result<Chosen, Refusal>
    ensures { record { answer = several_answer result; work = work.new }
        ≡ find_several_outcome first_edition n k t.now work.old }
{
    find_form(Edition::first(), n, k, t, work)?;
    search(n as u32, k as u32, t, work)
}
