// Writing a sheet as a formula into a lent room.
ghost use Rattle.std.specs.Prelude.{◌≡◌};
ghost use Rattle.sheets.specs.Edition.{IsEdition, first_edition};
ghost use Rattle.refusals.specs.Results.{verdict_of};
ghost use Rattle.refusals.specs.Lines.{verdict};
ghost use Rattle.printing.specs.WriteFormula.{write_answer, write_lines, write_outcome, write_own};

use crate::printed::is_printed;
use crate::signals::write;
use formulas::read_formula::MOST_TEXT;
use records::desk::desk_of;
use refusals::form;
use refusals::verdicts::Refusal;
use sheets::kinds::Edition;

// Lines 1, 6, 9, 10 and 16.
fn write_form<'a>(e: Edition, d: u8, n: u64, s: &'a [u8], room: &'a [u8]) -> Result<(), Refusal>
    requires { IsEdition e }
    ensures { verdict_of result ≡ verdict (write_lines e d n s.now room.now) }
{
    if form::bad_inputs(n) {
        return Err(Refusal::Inputs);
    }
    if room.len() < MOST_TEXT {
        return Err(Refusal::Room);
    }
    let inputs = n as u32;
    form::sheet(e, d, inputs, s)?;
    let m = s.len() / e.size;
    if !is_printed(e, inputs, s, m) {
        return Err(Refusal::NotPrinted);
    }
    Ok(())
}

// Writes a sheet of an edition, which is to be the desk d's.
pub fn write_in(e: Edition, d: u8, n: u64, s: &[u8], room: &mut [u8]) -> Result<usize, Refusal>
    requires { IsEdition e }
    ensures { record { answer = write_answer result; room = room.new } ≡ write_outcome e d n s.now room.old }
{
    write_form(e, d, n, s, room)?;
    let inputs = n as usize;
    let last = s.len() / e.size - 1;
    Ok(write(e, inputs, s, inputs + last, false, room, 0))
}

// Writes a sheet of n inputs, whatever its desk, as a formula into a lent room: the length of the text.
pub fn write_formula(n: u64, s: &[u8], room: &mut [u8]) -> Result<usize, Refusal>
    ensures { record { answer = write_answer result; room = room.new }
        ≡ write_own first_edition n s.now room.old }
{
    let e = Edition::first();
    write_in(e, desk_of(e, s), n, s, room)
}
