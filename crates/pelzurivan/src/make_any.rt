// Making a sheet for any gate, for C.
ghost use Rattle.std.specs.Prelude.{◌≡◌};
ghost use Rattle.sheets.specs.Edition.{first_edition};
ghost use Rattle.any_gate.specs.MakeAny.{any_outcome};
ghost use Rattle.pelzurivan.specs.MakeSheet.{made_c};

use crate::make_sheet::MadeC;
use any_gate::make_any::make_any;

// Makes a sheet for any gate for a desk, 0 being bench use, into lent bytes: how many cells.
#[unsafe(no_mangle)]
pub extern "C" fn pelzurivan_make_any(
    n: u64,
    k: u64,
    desk: u64,
    t: &[u8],
    sheet: &mut [u8],
    work: &mut [u8],
) -> MadeC
    ensures { (result ≡ made_c (any_outcome first_edition desk n k t.now sheet.old work.old))
        × (sheet.new
        ≡ (any_outcome first_edition desk n k t.now sheet.old work.old).sheet)
        × (work.new
        ≡ (any_outcome first_edition desk n k t.now sheet.old work.old).work) }
{
    MadeC::from(make_any(n, k, desk, t, sheet, work))
}
