// Making a sheet in a told edition, for C.
ghost use Rattle.std.specs.Prelude.{◌≡◌};
ghost use Rattle.bench.specs.MakeTold.{make_told};
ghost use Rattle.pelzurivan.specs.MakeSheet.{made_c};

use crate::make_sheet::MadeC;
use bench::make_told::make_told;

// Makes a sheet in records of the edition with that number, for a desk, 0 being bench use, into lent bytes: how many
// cells.
#[unsafe(no_mangle)]
pub extern "C" fn pelzurivan_make_told(
    edition: u64,
    n: u64,
    k: u64,
    desk: u64,
    t: &[u8],
    sheet: &mut [u8],
    work: &mut [u8],
) -> MadeC
    ensures { (result ≡ made_c (make_told edition desk n k t.now sheet.old work.old))
        × (sheet.new
        ≡ (make_told edition desk n k t.now sheet.old work.old).sheet)
        × (work.new
        ≡ (make_told edition desk n k t.now sheet.old work.old).work) }
{
    MadeC::from(make_told(edition, n, k, desk, t, sheet, work))
}
