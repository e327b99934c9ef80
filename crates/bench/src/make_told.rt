// Making a sheet of best splits in a told edition.
ghost use Rattle.std.specs.Prelude.{◌≡◌};
ghost use Rattle.bench.specs.MakeTold.{make_told};
ghost use Rattle.bench.specs.MakeSheet.{make_answer};

use crate::make_sheet::make_in;
use refusals::form;
use refusals::verdicts::Refusal;
use sheets::kinds::Edition;

// Makes the sheet of a table in records of the edition with the number w, for a desk, 0 being the bench's own: how many
// cells.
pub fn make_told(
    w: u64,
    n: u64,
    k: u64,
    desk: u64,
    t: &[u8],
    sheet: &mut [u8],
    work: &mut [u8],
) -> Result<usize, Refusal>
    ensures { record { answer = make_answer result; sheet = sheet.new; work = work.new }
        ≡ make_told w desk n k t.now sheet.old work.old }
{
    form::told(w, n)?;
    make_in(Edition::numbered(w), desk, n, k, t, sheet, work)
}
