// Writing a sheet as a formula, for C.
ghost use Rattle.std.specs.Prelude.{◌≡◌};
ghost use Rattle.sheets.specs.Edition.{first_edition};
ghost use Rattle.printing.specs.WriteFormula.{write_own, write_answer};
ghost use Rattle.pelzurivan.specs.WriteFormula.{formula_written_of, formula_written_c};

use printing::write_formula::write_formula;
use refusals::verdicts::Refusal;

// The number, the index of a bad record (10), and the text's length.
#[repr(C)]
#[derive(Clone, Copy)]
pub struct FormulaWrittenC {
    pub number: u64,
    pub place: u64,
    pub length: u64,
}

impl From<Result<usize, Refusal>> for FormulaWrittenC {
    ghost from_gives = { λ answer c. c ≡ formula_written_of (write_answer answer) };

    fn from(answer: Result<usize, Refusal>) -> FormulaWrittenC {
        match answer {
            Ok(length) => FormulaWrittenC {
                number: 0,
                place: 0,
                length: length as u64,
            },
            Err(why) => FormulaWrittenC {
                number: why.number() as u64,
                place: why.place(),
                length: 0,
            },
        }
    }
}

// Writes a sheet of n inputs as a formula into a lent room.
#[unsafe(no_mangle)]
pub extern "C" fn pelzurivan_write_formula(n: u64, s: &[u8], room: &mut [u8]) -> FormulaWrittenC
    ensures { (result ≡ formula_written_c (write_own first_edition n s.now room.old))
        × (room.new ≡ (write_own first_edition n s.now room.old).room) }
{
    FormulaWrittenC::from(write_formula(n, s, room))
}
