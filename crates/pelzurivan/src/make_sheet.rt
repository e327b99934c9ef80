// Making a sheet, for C.
ghost use Rattle.std.specs.Prelude.{◌≡◌};
ghost use Rattle.sheets.specs.Edition.{first_edition};
ghost use Rattle.bench.specs.MakeSheet.{make_outcome, make_answer};
ghost use Rattle.pelzurivan.specs.MakeSheet.{made_of, made_c};

use bench::make_sheet::make_for_desk;
use refusals::verdicts::Refusal;

// The number, how many cells.
#[repr(C)]
#[derive(Clone, Copy)]
pub struct MadeC {
    pub number: u64,
    pub count: u64,
}

impl From<Result<usize, Refusal>> for MadeC {
    ghost from_gives = { λ answer c. c ≡ made_of (make_answer answer) };

    fn from(answer: Result<usize, Refusal>) -> MadeC {
        match answer {
            Ok(count) => MadeC {
                number: 0,
                count: count as u64,
            },
            Err(why) => MadeC {
                number: why.number() as u64,
                count: 0,
            },
        }
    }
}

// Makes a sheet for a desk, 0 being bench use, into lent bytes: how many cells.
#[unsafe(no_mangle)]
pub extern "C" fn pelzurivan_make_for_desk(
    n: u64,
    k: u64,
    desk: u64,
    t: &[u8],
    sheet: &mut [u8],
    work: &mut [u8],
) -> MadeC
    ensures { (result ≡ made_c (make_outcome first_edition desk n k t.now sheet.old work.old))
        × (sheet.new
        ≡ (make_outcome first_edition desk n k t.now sheet.old work.old).sheet)
        × (work.new
        ≡ (make_outcome first_edition desk n k t.now sheet.old work.old).work) }
{
    MadeC::from(make_for_desk(n, k, desk, t, sheet, work))
}

// Makes a sheet for bench use.
#[unsafe(no_mangle)]
pub extern "C" fn pelzurivan_make(
    n: u64,
    k: u64,
    t: &[u8],
    sheet: &mut [u8],
    work: &mut [u8],
) -> MadeC
    ensures { (result ≡ made_c (make_outcome first_edition 0 n k t.now sheet.old work.old))
        × (sheet.new
        ≡ (make_outcome first_edition 0 n k t.now sheet.old work.old).sheet)
        × (work.new
        ≡ (make_outcome first_edition 0 n k t.now sheet.old work.old).work) }
{
    pelzurivan_make_for_desk(n, k, 0, t, sheet, work)
}
