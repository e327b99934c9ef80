// Finding the best split.
ghost use Rattle.std.specs.Prelude.{◌≡◌, ◌≤◌, length};
ghost use Rattle.tables.specs.Table.{most_inputs, table_length};
ghost use Rattle.sheets.specs.Edition.{IsEdition, first_edition};
ghost use Rattle.tables.specs.Work.{work_length};
ghost use Rattle.refusals.specs.Results.{verdict_of};
ghost use Rattle.refusals.specs.Lines.{verdict, reply};
ghost use Rattle.finding.specs.FindBest.{find_answer, best_for, find_form, find_says, find_done, find_not};
ghost use Rattle.finding.specs.FindBest.{find_outcome};

use best::Masks;
use quick::counted::{Counted, find_counting};
use refusals::form;
use refusals::verdicts::Refusal;
use sheets::kinds::Edition;
use tables::WORK;

// Lines 1 to 4, and 6.
pub fn find_form<'a>(e: Edition, n: u64, k: u64, t: &'a [u8], work: &'a [u8]) -> Result<(), Refusal>
    ensures { verdict_of result ≡ verdict (find_form e n k t.now work.now) }
{
    form::gate(e, n, k, t)?;
    if work.len() < WORK {
        return Err(Refusal::Room);
    }
    Ok(())
}

// Lines 7 and 8: the best split over the inputs that count, or that at most k count, or that none is possible.
fn search(n: u32, k: u32, t: &[u8], work: &mut [u8]) -> Result<Masks, Refusal>
    requires { (n ≤ most_inputs) × (k ≤ most_inputs) × (length t.now ≡ table_length n)
        × (work_length ≤ length work.old) }
    ensures { record { answer = find_answer result; work = work.new }
        ≡ reply (verdict (find_says n k t.now))
        (find_done (best_for n k t.now) work.old) (find_not work.old) }
{
    match find_counting(t, n, 1, k, work) {
        Counted::Few => Err(Refusal::Nothing),
        Counted::Split(own, shared) => Ok(Masks { own, shared }),
        Counted::Nothing => Err(Refusal::NoSplit),
    }
}

// Finds the best split into cells of an edition.
pub fn find_in(e: Edition, n: u64, k: u64, t: &[u8], work: &mut [u8]) -> Result<Masks, Refusal>
    requires { IsEdition e }
    ensures { record { answer = find_answer result; work = work.new } ≡ find_outcome e n k t.now work.old }
{
    find_form(e, n, k, t, work)?;
    search(n as u32, k as u32, t, work)
}

// Finds the best split: two masks.
pub fn find_best(n: u64, k: u64, t: &[u8], work: &mut [u8]) -> Result<Masks, Refusal>
    ensures { record { answer = find_answer result; work = work.new }
        ≡ find_outcome first_edition n k t.now work.old }
{
    find_in(Edition::first(), n, k, t, work)
}
