// Making a sheet of best splits.
ghost use Rattle.std.specs.Prelude.{◌≡◌, ◌*◌, ◌^◌, ◌≤◌, length};
ghost use Rattle.bits.specs.Numbers.{number};
ghost use Rattle.tables.specs.Table.{most_inputs, table_length, table_bit};
ghost use Rattle.splits.specs.Columns.{most_first};
ghost use Rattle.sheets.specs.Edition.{IsEdition, most_records, first_edition};
ghost use Rattle.tables.specs.Work.{work_length};
ghost use Rattle.chains.specs.Aside.{cells_aside};
ghost use Rattle.refusals.specs.Results.{verdict_of};
ghost use Rattle.refusals.specs.Lines.{verdict};
ghost use Rattle.bench.specs.MakeSheet.{make_answer, make_form, chain_written, make_outcome};

use making::chaining::chain_upto;
use refusals::form;
use refusals::verdicts::Refusal;
use sheets::kinds::{Edition, Sheet};
use sheets::writing::put_all;
use tables::WORK;

// Lines 1 to 6.
fn make_form<'a>(
    e: Edition,
    d: u64,
    n: u64,
    k: u64,
    t: &'a [u8],
    sheet: &'a [u8],
    work: &'a [u8],
) -> Result<(), Refusal>
    requires { IsEdition e }
    ensures { verdict_of result ≡ verdict (make_form e d n k t.now sheet.now work.now) }
{
    form::gate(e, n, k, t)?;
    if d > Sheet::DESKS as u64 {
        return Err(Refusal::Desk);
    }
    if sheet.len() < e.size * Sheet::RECORDS {
        return Err(Refusal::Room);
    }
    if work.len() < WORK {
        return Err(Refusal::Room);
    }
    Ok(())
}

// The chain of a gate with up to `most` first cells at each step: its records into lent bytes that are enough, or that
// it is stuck, or longer than a sheet, which it never is with one; the work area is cleared.
pub fn write_chain(
    e: Edition,
    d: u8,
    n: u32,
    most: u32,
    k: u32,
    t: &[u8],
    sheet: &mut [u8],
    work: &mut [u8],
) -> Result<usize, Refusal>
    requires edition { IsEdition e × (1 ≤ n) × (n ≤ most_inputs) × (most ≤ most_first) × (2 ≤ k) × (k ≤ e.most) }
    requires t_len { (length t.now ≡ table_length n) × (e.size * most_records ≤ length sheet.old)
        × (work_length ≤ length work.old) }
    ensures { record { answer = make_answer result; sheet = sheet.new; work = work.new }
        ≡ chain_written e d (cells_aside most n k (number (2 ^ n) (table_bit t.now))) sheet.old
        work.old }
{
    let chain = chain_upto(t, n, most, k, work).ok_or(Refusal::NoSplit)?;
    if Sheet::RECORDS < chain.count {
        return Err(Refusal::Long);
    }
    put_all(e, d, chain.sheet, sheet);
    Ok(chain.count)
}

// Makes the sheet of a table in an edition's records, for the desk d.
pub fn make_in(
    e: Edition,
    d: u64,
    n: u64,
    k: u64,
    t: &[u8],
    sheet: &mut [u8],
    work: &mut [u8],
) -> Result<usize, Refusal>
    requires { IsEdition e }
    ensures { record { answer = make_answer result; sheet = sheet.new; work = work.new } ≡ make_outcome e d n k
        t.now sheet.old work.old }
{
    make_form(e, d, n, k, t, sheet, work)?;
    write_chain(e, d as u8, n as u32, 1, k as u32, t, sheet, work)
}

// Makes the sheet of a table for a desk, 0 being the bench's own: how many cells.
pub fn make_for_desk(
    n: u64,
    k: u64,
    desk: u64,
    t: &[u8],
    sheet: &mut [u8],
    work: &mut [u8],
) -> Result<usize, Refusal>
    ensures { record { answer = make_answer result; sheet = sheet.new; work = work.new }
        ≡ make_outcome first_edition desk n k t.now sheet.old work.old }
{
    make_in(Edition::first(), desk, n, k, t, sheet, work)
}

// Makes the sheet of a table for bench use: how many cells.
pub fn make_sheet(
    n: u64,
    k: u64,
    t: &[u8],
    sheet: &mut [u8],
    work: &mut [u8],
) -> Result<usize, Refusal>
    ensures { record { answer = make_answer result; sheet = sheet.new; work = work.new }
        ≡ make_outcome first_edition 0 n k t.now sheet.old work.old }
{
    make_for_desk(n, k, 0, t, sheet, work)
}
