// Lines that several calls share: 1 to 4 of a gate, 1 and 2 of a told edition, 1, 9, 10 and 15 of a sheet.
ghost use Rattle.std.specs.Prelude.{◌≡◌, not, ◌&&◌, [], ◌∷◌, ◌≤◌, leb};
ghost use Rattle.tables.specs.Table.{most_inputs};
ghost use Rattle.sheets.specs.Edition.{IsEdition};
ghost use Rattle.refusals.specs.Lines.{verdict, InOrder};
ghost use Rattle.refusals.specs.Results.{verdict_of};
ghost use Rattle.refusals.specs.Refusals.{bad_inputs, bad_cell, bad_edition, bad_table};
ghost use Rattle.refusals.specs.Refusals.{sized_lines, table_lines, gate_lines};
ghost use Rattle.refusals.specs.Refusals.{sheet_lines, unread_record, read_sheet_lines};
ghost use Rattle.refusals.specs.Refusals.{told_form};

use crate::verdicts::Refusal;
use records::rules;
use sheets::kinds::Edition;
use unread::reading::who_reads;

// Whether a number is outside its limits.
pub fn outside(low: u64, x: u64, high: u64) -> bool
    ensures { result ≡ not (leb low x && leb x high) }
{
    x < low || high < x
}

// Line 1: n outside 1 to 16.
pub fn bad_inputs(n: u64) -> bool
    ensures { result ≡ (bad_inputs n).holds }
{
    outside(1, n, tables::MOST_INPUTS as u64)
}

// Line 2: K outside 2 to the largest cell.
fn bad_cell(e: Edition, k: u64) -> bool
    ensures { result ≡ (bad_cell e k).holds }
{
    outside(2, k, e.most as u64)
}

// Line 3: a wrong length.
fn bad_table(n: u32, t: &[u8]) -> bool
    requires { n ≤ most_inputs }
    ensures { result ≡ (bad_table n t.now).holds }
{
    t.len() != tables::length_for(n)
}

// Lines 1 and 3.
pub fn sized(n: u64, t: &[u8]) -> Result<(), Refusal>
    ensures { verdict_of result ≡ verdict (sized_lines n t.now) }
{
    if bad_inputs(n) {
        return Err(Refusal::Inputs);
    }
    if bad_table(n as u32, t) {
        return Err(Refusal::Table);
    }
    Ok(())
}

// Lines 1, 3 and 4; a table of three inputs or more has no spare bits.
pub fn table(n: u64, t: &[u8]) -> Result<(), Refusal>
    ensures { verdict_of result ≡ verdict (table_lines n t.now) }
{
    sized(n, t)?;
    if !tables::spare_clear(n as u32, t) {
        return Err(Refusal::Spare);
    }
    Ok(())
}

// Lines 1 to 4.
pub fn gate(e: Edition, n: u64, k: u64, t: &[u8]) -> Result<(), Refusal>
    ensures { verdict_of result ≡ verdict (gate_lines e n k t.now) }
{
    if bad_inputs(n) {
        return Err(Refusal::Inputs);
    }
    if bad_cell(e, k) {
        return Err(Refusal::Cell);
    }
    table(n, t)
}

// Line 2: the number of the edition is neither 1 nor 2.
fn bad_edition(w: u64) -> bool
    ensures { result ≡ (bad_edition w).holds }
{
    outside(1, w, Edition::LAST)
}

// Lines 1 and 2 of a call that is told the edition.
pub fn told(w: u64, n: u64) -> Result<(), Refusal>
    ensures { verdict_of result ≡ verdict (told_form w n) }
{
    if bad_inputs(n) {
        return Err(Refusal::Inputs);
    }
    if bad_edition(w) {
        return Err(Refusal::Edition);
    }
    Ok(())
}

// Lines 9 and 10.
pub fn sheet(e: Edition, d: u8, n: u32, s: &[u8]) -> Result<(), Refusal>
    requires { IsEdition e × (n ≤ most_inputs) }
    ensures { verdict_of result ≡ verdict (sheet_lines e d n s.now) }
{
    rules::look(e, d, n, s)?;
    Ok(())
}

// Lines 1, 9 and 10.
pub fn sheet_for(e: Edition, d: u8, n: u64, s: &[u8]) -> Result<(), Refusal>
    requires { IsEdition e }
    ensures { verdict_of result ≡ verdict (bad_inputs n ∷ sheet_lines e d n s.now) }
{
    if bad_inputs(n) {
        return Err(Refusal::Inputs);
    }
    sheet(e, d, n as u32, s)
}

// Line 15, of a sheet that lines 9 and 10 let through.
pub fn all_read(e: Edition, d: u8, n: u32, s: &[u8]) -> Result<(), Refusal>
    requires { IsEdition e × (n ≤ most_inputs) × InOrder (sheet_lines e d n s.now) }
    ensures { verdict_of result ≡ verdict (unread_record e n s.now ∷ []) }
{
    let m = s.len() / e.size;
    match who_reads(e, n, s, m).first {
        Some(i) => Err(Refusal::Unread(i)),
        None => Ok(()),
    }
}

// Lines 9, 10 and 15.
pub fn read_sheet(e: Edition, d: u8, n: u32, s: &[u8]) -> Result<(), Refusal>
    requires { IsEdition e × (n ≤ most_inputs) }
    ensures { verdict_of result ≡ verdict (read_sheet_lines e d n s.now) }
{
    sheet(e, d, n, s)?;
    all_read(e, d, n, s)
}
