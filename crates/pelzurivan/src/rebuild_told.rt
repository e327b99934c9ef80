// Rebuilding a table from a sheet of a told edition, for C.
ghost use Rattle.std.specs.Prelude.{◌≡◌};
ghost use Rattle.rebuilding.specs.RebuildTold.{rebuild_told};
ghost use Rattle.pelzurivan.specs.RebuildTable.{rebuilt_c};

use crate::rebuild_table::RebuiltC;
use rebuilding::rebuild_told::rebuild_told;

// Rebuilds a table from a sheet of the edition with the number `edition` into lent bytes.
#[unsafe(no_mangle)]
pub extern "C" fn pelzurivan_rebuild_told(
    edition: u64,
    n: u64,
    s: &[u8],
    table: &mut [u8],
) -> RebuiltC
    ensures { (result ≡ rebuilt_c (rebuild_told edition n s.now table.old))
        × (table.new ≡ (rebuild_told edition n s.now table.old).table) }
{
    RebuiltC::from(rebuild_told(edition, n, s, table))
}
