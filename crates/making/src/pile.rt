// The cells of a chain so far.
ghost use Rattle.std.specs.Prelude.{[], ◌∷◌, ◌+◌, ◌≤◌};
ghost use Rattle.bits.specs.Lists.{list_of};
ghost use Rattle.splits.specs.Columns.{most_first};
ghost use Rattle.charts.specs.Cells.{table_in};
ghost use Rattle.sheets.specs.Edition.{largest_cell};
ghost use Rattle.sheets.specs.Held.{network_cell};
ghost use Rattle.chains.specs.Chain.{last_cell};
ghost use Rattle.making.specs.Stage.{signals_of};

use crate::signals::Signals;
use charts::pair::FirstCells;
use sheets::kinds::{HeldCell, Sheet};

// All cells are counted, and the sheet holds them as long as it has room for them.
#[derive(Clone, Copy)]
pub struct Pile {
    pub sheet: Sheet,
    pub count: usize,
    pub ghost within: { sheet.count ≤ count },
}

impl Pile {
    ghost use Rattle.making.specs.Pile.{most_piled, Piled, Grown};

    pub fn empty() -> Pile
        ensures { Piled result [] }
    {
        Pile {
            sheet: Sheet::empty(),
            count: 0,
        }
    }

    // One cell more.
    pub fn with_cell(self, c: HeldCell) -> Pile
        requires { self.count ≤ most_piled }
        ensures { Grown self (network_cell c ∷ []) result }
    {
        let sheet = if self.count < Sheet::RECORDS {
            self.sheet.with_cell(c)
        } else {
            self.sheet
        };
        Pile {
            sheet,
            count: self.count + 1,
        }
    }

    // One, two or three first cells more, which all read the same signals.
    pub fn with_first(self, read: Signals, r: u32, d: FirstCells) -> Pile
        requires { (self.count + r ≤ most_piled) × (1 ≤ r) × (r ≤ most_first) × (read.count ≤ largest_cell) }
        ensures { Grown self (list_of r (λ t. last_cell (signals_of read) (table_in d t))) result }
    {
        let tables = [d.first, d.second, d.third];
        let mut pile = self;
        for t in 0..r as usize {
            pile = pile.with_cell(read.cell(tables[t]));
        }
        pile
    }
}
