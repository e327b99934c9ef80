// Keeping the shorter of two sheets for one table: a part of what the caller lent, where it lies.
ghost use Rattle.std.specs.Prelude.{◌≡◌};
ghost use Rattle.sheets.specs.Edition.{IsEdition, first_edition};
ghost use Rattle.refusals.specs.Results.{verdict_of};
ghost use Rattle.comparing.specs.Shorter.{kept_of, which_kept, kept_outcome, part_of, shorter_outcome};

use inspection::check_sheet::check_own;
use refusals::verdicts::Refusal;
use sheets::kinds::Edition;

// One of two sheets.
#[derive(Clone, Copy, Debug, PartialEq, Eq)]
pub enum Which {
    First,
    Second,
}

// By what the check says of each, and their numbers of records: which is kept, or what was said of the first.
fn keep(
    first: Result<(), Refusal>,
    second: Result<(), Refusal>,
    i: usize,
    j: usize,
) -> Result<Which, Refusal>
    ensures { kept_of result ≡ which_kept (verdict_of first) (verdict_of second) i j }
{
    match (first, second) {
        (Ok(()), Ok(())) => {
            if i <= j {
                return Ok(Which::First);
            }
            Ok(Which::Second)
        }
        (Ok(()), Err(_)) => Ok(Which::First),
        (Err(_), Ok(())) => Ok(Which::Second),
        (Err(why), Err(_)) => Err(why),
    }
}

// Looks over both sheets of an edition, each for its own desk.
pub fn keep_in<'a>(
    e: Edition,
    n: u64,
    t: &'a [u8],
    first: &'a [u8],
    second: &'a [u8],
) -> Result<Which, Refusal>
    requires { IsEdition e }
    ensures { kept_of result ≡ kept_outcome e n t.now first.now second.now }
{
    let one = check_own(e, n, t, first);
    let two = check_own(e, n, t, second);
    keep(one, two, first.len() / e.size, second.len() / e.size)
}

// The number of the sheet that is kept: 0 none, 1 the first, 2 the second.
pub fn number_kept(kept: Result<Which, Refusal>) -> u64
    ensures { result ≡ (kept_of kept).which }
{
    match kept {
        Ok(Which::First) => 1,
        Ok(Which::Second) => 2,
        Err(_) => 0,
    }
}

// The sheet with that number, as it lies in the caller's memory; of any other number none of it.
// The number stays one: what is handed back for every number is promised.
pub fn part_of<'a>(which: u64, first: &'a [u8], second: &'a [u8]) -> &'a [u8]
    ensures { result.now ≡ part_of which first.now second.now }
{
    if which == 1 {
        return first;
    }
    if which == 2 {
        return second;
    }
    &first[..0]
}

// Which of two sheets for one table is kept: the shorter of those that the check accepts; else what it says of the
// first.
pub fn keep_shorter<'a>(
    n: u64,
    t: &'a [u8],
    first: &'a [u8],
    second: &'a [u8],
) -> Result<Which, Refusal>
    ensures { kept_of result ≡ kept_outcome first_edition n t.now first.now second.now }
{
    keep_in(Edition::first(), n, t, first, second)
}

// The shorter of two sheets for one table, of those that the check accepts; empty if it accepts neither.
pub fn shorter<'a>(n: u64, t: &'a [u8], first: &'a [u8], second: &'a [u8]) -> &'a [u8]
    ensures { result.now ≡ shorter_outcome first_edition n t.now first.now second.now }
{
    let kept = keep_shorter(n, t, first, second);
    part_of(number_kept(kept), first, second)
}

// The call beside: done if one of them is accepted, else the first's refusal.
pub fn shorter_verdict<'a>(
    n: u64,
    t: &'a [u8],
    first: &'a [u8],
    second: &'a [u8],
) -> Result<(), Refusal>
    ensures { verdict_of result ≡ (kept_outcome first_edition n t.now first.now second.now).verdict }
{
    keep_shorter(n, t, first, second)?;
    Ok(())
}
