// A lower bound on the cells of a table, for C.
ghost use Rattle.std.specs.Prelude.{◌≡◌};
ghost use Rattle.bounds.specs.BoundCells.{bound_outcome, bound_answer};
ghost use Rattle.pelzurivan.specs.Bound.{bounded_of, bounded_c};

use bounds::bound_cells::bound_cells;
use refusals::verdicts::Refusal;

// The number, and the bound.
#[repr(C)]
#[derive(Clone, Copy)]
pub struct BoundedC {
    pub number: u64,
    pub least: u64,
}

impl From<Result<u32, Refusal>> for BoundedC {
    ghost from_gives = { λ answer c. c ≡ bounded_of (bound_answer answer) };

    fn from(answer: Result<u32, Refusal>) -> BoundedC {
        match answer {
            Ok(least) => BoundedC {
                number: 0,
                least: least as u64,
            },
            Err(why) => BoundedC {
                number: why.number() as u64,
                least: 0,
            },
        }
    }
}

// A number of cells of the edition with the number `edition`: no network of fewer carries the table.
#[unsafe(no_mangle)]
pub extern "C" fn pelzurivan_bound(
    edition: u64,
    n: u64,
    k: u64,
    t: &[u8],
    work: &mut [u8],
) -> BoundedC
    ensures { (result ≡ bounded_c (bound_outcome edition n k t.now work.old))
        × (work.new ≡ (bound_outcome edition n k t.now work.old).work) }
{
    BoundedC::from(bound_cells(edition, n, k, t, work))
}
