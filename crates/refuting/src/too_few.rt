// Showing, by a certificate, that no network of m cells or fewer carries a table.
ghost use Rattle.std.specs.Prelude.{◌≡◌, ◌+◌, ◌*◌, ◌≤◌, ltb, length};
ghost use Rattle.tables.specs.Table.{most_inputs, table_length};
ghost use Rattle.sheets.specs.Edition.{IsEdition, most_records};
ghost use Rattle.refusals.specs.Results.{verdict_of};
ghost use Rattle.refusals.specs.Lines.{verdict};
ghost use Rattle.refuting.specs.TooFew.{few_form, certificate_lines, few_in, few_after, too_few_outcome};

use crate::header::header_in_order;
use crate::steps::look_through;
use clauses::numbers::two_at;
use clauses::task::Task;
use clauses::variables::Size;
use refusals::form;
use refusals::verdicts::Refusal;
use sheets::kinds::{Edition, Sheet};
use tables::clear;

// Lines 1 to 5.
fn few_form(e: Edition, n: u64, k: u64, m: u64, t: &[u8]) -> Result<(), Refusal>
    ensures { verdict_of result ≡ verdict (few_form e n k m t.now) }
{
    form::gate(e, n, k, t)?;
    if form::outside(1, m, Sheet::RECORDS as u64) {
        return Err(Refusal::Cells);
    }
    Ok(())
}

// Whether a work area is shorter than V + 2 times the certificate's length.
fn is_short(all: usize, many: usize, room: usize) -> bool
    ensures { result ≡ ltb room (all + 2 * many) }
{
    room < all || (room - all) / 2 < many
}

// Lines 6 and 22, the others being in order.
fn look_at<'a>(
    n: u64,
    k: u64,
    m: u64,
    t: &'a [u8],
    c: &'a [u8],
    work: &mut [u8],
) -> Result<(), Refusal>
    requires { (n ≤ most_inputs) × (k ≤ 8) × (1 ≤ m) × (m ≤ most_records) × (length t.now ≡ table_length n) }
    ensures { record { verdict = verdict_of result; work = work.new }
        ≡ few_after work.old (verdict (certificate_lines n k m t.now c.now work.old)) }
{
    if !header_in_order(n as u32, c) {
        clear(work);
        return Err(Refusal::NotShown(0));
    }
    let task = Task {
        size: Size {
            inputs: n as usize,
            cell: k as usize,
            cells: m as usize,
            rows: two_at(c, 0),
        },
        table: t,
        certificate: c,
    };
    if is_short(task.all_variables(), c.len(), work.len()) {
        return Err(Refusal::Room);
    }
    clear(work);
    let seen = look_through(&task, work);
    clear(work);
    seen
}

// The call in an edition.
fn few_in<'a>(
    e: Edition,
    n: u64,
    k: u64,
    m: u64,
    t: &'a [u8],
    c: &'a [u8],
    work: &mut [u8],
) -> Result<(), Refusal>
    requires { IsEdition e }
    ensures { record { verdict = verdict_of result; work = work.new }
        ≡ few_after work.old (verdict (few_in e n k m t.now c.now work.old)) }
{
    few_form(e, n, k, m, t)?;
    look_at(n, k, m, t, c, work)
}

// Whether a certificate shows that no network of m or fewer cells of the edition with the number w carries the table.
pub fn too_few<'a>(
    w: u64,
    n: u64,
    k: u64,
    m: u64,
    t: &'a [u8],
    c: &'a [u8],
    work: &mut [u8],
) -> Result<(), Refusal>
    ensures { record { verdict = verdict_of result; work = work.new }
        ≡ too_few_outcome w n k m t.now c.now work.old }
{
    form::told(w, n)?;
    few_in(Edition::numbered(w), n, k, m, t, c, work)
}
