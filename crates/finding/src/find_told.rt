// Finding the best split into cells of a told edition.
ghost use Rattle.std.specs.Prelude.{◌≡◌};
ghost use Rattle.finding.specs.FindTold.{find_told};
ghost use Rattle.finding.specs.FindBest.{find_answer};

use crate::find_best::find_in;
use best::Masks;
use refusals::form;
use refusals::verdicts::Refusal;
use sheets::kinds::Edition;

// Finds the best split into cells of the edition with the number w: two masks.
pub fn find_told(w: u64, n: u64, k: u64, t: &[u8], work: &mut [u8]) -> Result<Masks, Refusal>
    ensures { record { answer = find_answer result; work = work.new }
        ≡ find_told w n k t.now work.old }
{
    form::told(w, n)?;
    find_in(Edition::numbered(w), n, k, t, work)
}
