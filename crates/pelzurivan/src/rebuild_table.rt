// Rebuilding a table, for C.
ghost use Rattle.std.specs.Prelude.{◌≡◌};
ghost use Rattle.sheets.specs.Edition.{first_edition};
ghost use Rattle.rebuilding.specs.RebuildTable.{rebuild_own};
ghost use Rattle.refusals.specs.Results.{verdict_of};
ghost use Rattle.pelzurivan.specs.RebuildTable.{rebuilt_of, rebuilt_c};

use rebuilding::rebuild_table::rebuild_table;
use refusals::verdicts::Refusal;

// The number, the index of a bad record (10) or of an unread one (15).
#[repr(C)]
#[derive(Clone, Copy)]
pub struct RebuiltC {
    pub number: u64,
    pub index: u64,
}

impl From<Result<(), Refusal>> for RebuiltC {
    ghost from_gives = { λ answer c. c ≡ rebuilt_of (verdict_of answer) };

    fn from(answer: Result<(), Refusal>) -> RebuiltC {
        match answer {
            Ok(_) => RebuiltC {
                number: 0,
                index: 0,
            },
            Err(why) => RebuiltC {
                number: why.number() as u64,
                index: why.place(),
            },
        }
    }
}

// Rebuilds a table from a sheet into lent bytes.
#[unsafe(no_mangle)]
pub extern "C" fn pelzurivan_rebuild(n: u64, s: &[u8], table: &mut [u8]) -> RebuiltC
    ensures { (result ≡ rebuilt_c (rebuild_own first_edition n s.now table.old))
        × (table.new ≡ (rebuild_own first_edition n s.now table.old).table) }
{
    RebuiltC::from(rebuild_table(n, s, table))
}
