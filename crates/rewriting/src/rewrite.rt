// Writing a first-edition sheet in the second edition.
ghost use Rattle.std.specs.Prelude.{◌≡◌, ◌++◌, ◌*◌, ◌≤◌, length, drop};
ghost use Rattle.sheets.specs.Edition.{IsEdition, most_records, first_edition, second_edition};
ghost use Rattle.sheets.specs.Sheet.{AllReadable};
ghost use Rattle.refusals.specs.Results.{verdict_of};
ghost use Rattle.refusals.specs.Lines.{verdict};
ghost use Rattle.rewriting.specs.Rewrite.{rewrite_answer, rewritten, rewrite_lines, rewrite_outcome, rewrite_own};

use crate::cells::cell_of;
use records::desk::desk_of;
use records::rules::record_of;
use refusals::form;
use refusals::verdicts::Refusal;
use sheets::kinds::{Edition, Sheet};
use sheets::writing::put;

// Lines 1, 6, 9, 10 and 15.
fn rewrite_form<'a>(
    e: Edition,
    f: Edition,
    d: u8,
    n: u64,
    s: &'a [u8],
    room: &'a [u8],
) -> Result<(), Refusal>
    requires { IsEdition e × IsEdition f }
    ensures { verdict_of result ≡ verdict (rewrite_lines e f d n s.now room.now) }
{
    if form::bad_inputs(n) {
        return Err(Refusal::Inputs);
    }
    if room.len() < f.size * Sheet::RECORDS {
        return Err(Refusal::Room);
    }
    form::read_sheet(e, d, n as u32, s)
}

// The cells of m records of the edition e as records of the edition f; the bytes after the last stay.
fn write_cells(e: Edition, f: Edition, d: u8, s: &[u8], m: usize, room: &mut [u8])
    requires edition { IsEdition e × (m ≤ most_records) × (e.size * m ≤ length s.now) × AllReadable e s.now m }
    requires edition_2 { IsEdition f × (e.most ≤ f.most) × (f.size * m ≤ length room.old) }
    ensures { room.new ≡ rewritten e f d s.now m ++ drop (f.size * m) room.old }
{
    for i in 0..m {
        put(f, d, cell_of(e, record_of(e, s, i)), room, i);
    }
}

// Writes a sheet of the edition e, which is to be the desk d's, in the edition f of cells as large or larger.
pub fn rewrite_in(
    e: Edition,
    f: Edition,
    d: u8,
    n: u64,
    s: &[u8],
    room: &mut [u8],
) -> Result<usize, Refusal>
    requires { IsEdition e × IsEdition f × (e.most ≤ f.most) }
    ensures { record { answer = rewrite_answer result; room = room.new }
        ≡ rewrite_outcome e f d n s.now room.old }
{
    rewrite_form(e, f, d, n, s, room)?;
    let m = s.len() / e.size;
    write_cells(e, f, d, s, m, room);
    Ok(m)
}

// Writes a first-edition sheet, whatever its desk, in the second edition: how many records.
pub fn rewrite(n: u64, s: &[u8], room: &mut [u8]) -> Result<usize, Refusal>
    ensures { record { answer = rewrite_answer result; room = room.new }
        ≡ rewrite_own first_edition second_edition n s.now room.old }
{
    let e = Edition::first();
    rewrite_in(e, Edition::second(), desk_of(e, s), n, s, room)
}
