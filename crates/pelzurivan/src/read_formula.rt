// Reading a formula, for C.
ghost use Rattle.std.specs.Prelude.{◌≡◌};
ghost use Rattle.formulas.specs.ReadFormula.{read_outcome};
ghost use Rattle.refusals.specs.Results.{verdict_of};
ghost use Rattle.pelzurivan.specs.ReadFormula.{formula_read_of, formula_read_c};

use formulas::read_formula::read_formula;
use refusals::verdicts::Refusal;

// The number, and the place at which the text can't be continued (16).
#[repr(C)]
#[derive(Clone, Copy)]
pub struct FormulaReadC {
    pub number: u64,
    pub place: u64,
}

impl From<Result<(), Refusal>> for FormulaReadC {
    ghost from_gives = { λ answer c. c ≡ formula_read_of (verdict_of answer) };

    fn from(answer: Result<(), Refusal>) -> FormulaReadC {
        match answer {
            Ok(_) => FormulaReadC {
                number: 0,
                place: 0,
            },
            Err(why) => FormulaReadC {
                number: why.number() as u64,
                place: why.place(),
            },
        }
    }
}

// Reads a formula of n inputs into a lent table.
#[unsafe(no_mangle)]
pub extern "C" fn pelzurivan_read_formula(n: u64, t: &[u8], table: &mut [u8]) -> FormulaReadC
    ensures { (result ≡ formula_read_c (read_outcome n t.now table.old))
        × (table.new ≡ (read_outcome n t.now table.old).table) }
{
    FormulaReadC::from(read_formula(n, t, table))
}
