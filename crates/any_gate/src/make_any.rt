// Making a sheet for any gate: make's where there is one, else that of the chain with several first cells at a step.
ghost use Rattle.std.specs.Prelude.{◌≡◌};
ghost use Rattle.sheets.specs.Edition.{first_edition};
ghost use Rattle.any_gate.specs.MakeAny.{any_outcome};
ghost use Rattle.bench.specs.MakeSheet.{make_answer};

use bench::make_sheet::{make_for_desk, write_chain};
use columns::split::Split;
use refusals::verdicts::{Refusal, number_of};
use sheets::kinds::Edition;

// Makes a sheet for any gate for a desk, 0 being the bench's own: how many cells.
pub fn make_any(
    n: u64,
    k: u64,
    desk: u64,
    t: &[u8],
    sheet: &mut [u8],
    work: &mut [u8],
) -> Result<usize, Refusal>
    ensures { record { answer = make_answer result; sheet = sheet.new; work = work.new }
        ≡ any_outcome first_edition desk n k t.now sheet.old work.old }
{
    let made = make_for_desk(n, k, desk, t, sheet, work);
    // by its number, since that, and what is named besides, is all that make promises of a refusal
    let no_split = Refusal::NoSplit.number();
    if number_of(&made) != no_split {
        return made;
    }
    write_chain(
        Edition::first(),
        desk as u8,
        n as u32,
        Split::MOST_FIRST as u32,
        k as u32,
        t,
        sheet,
        work,
    )
}
