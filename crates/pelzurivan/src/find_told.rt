// Finding the best split in a told edition, for C.
ghost use Rattle.std.specs.Prelude.{◌≡◌};
ghost use Rattle.finding.specs.FindTold.{find_told};
ghost use Rattle.pelzurivan.specs.FindBest.{sought_c};

use crate::find_best::SoughtC;
use finding::find_told::find_told;

// Finds the best split into cells of the edition with that number: two masks.
#[unsafe(no_mangle)]
pub extern "C" fn pelzurivan_find_told(
    edition: u64,
    n: u64,
    k: u64,
    t: &[u8],
    work: &mut [u8],
) -> SoughtC
    ensures { (result ≡ sought_c (find_told edition n k t.now work.old))
        × (work.new ≡ (find_told edition n k t.now work.old).work) }
{
    SoughtC::from(find_told(edition, n, k, t, work))
}
