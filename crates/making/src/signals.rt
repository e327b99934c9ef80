// The signals of the table at hand.
ghost use Rattle.std.specs.Prelude.{◌≡◌, [], ◌∷◌, ◌++◌, ◌+◌, ◌<◌, ◌≤◌, length};
ghost use Rattle.bits.specs.Numbers.{bit};
ghost use Rattle.bits.specs.Lists.{list_of};
ghost use Rattle.tables.specs.Table.{most_inputs};
ghost use Rattle.splits.specs.Columns.{most_first};
ghost use Rattle.tables.specs.Cells.{table_number};
ghost use Rattle.sheets.specs.Edition.{largest_cell};
ghost use Rattle.sheets.specs.Held.{network_cell};
ghost use Rattle.chains.specs.Chain.{pick, inputs, last_cell};

use sheets::kinds::HeldCell;
use tables::cell::CellTable;

// The first `count` places, in increasing order: as many places as a gate has inputs, and no more signals than places.
#[derive(Clone, Copy)]
pub struct Signals {
    pub at: [u8; Signals::MOST],
    pub count: usize,
    pub ghost places: { length at ≡ most_inputs },
    pub ghost few: { count ≤ most_inputs },
}

impl Signals {
    ghost use Rattle.making.specs.Stage.{signals_of};

    // as many as a gate has inputs
    pub const MOST: usize = tables::MOST_INPUTS as usize;

    // Those of a gate's inputs.
    pub fn inputs(n: u32) -> Signals
        requires { n ≤ most_inputs }
        ensures { (signals_of result ≡ inputs n) × (result.count ≡ n) }
    {
        Signals {
            at: [0, 1, 2, 3, 4, 5, 6, 7, 8, 9, 10, 11, 12, 13, 14, 15],
            count: n as usize,
        }
    }

    // Those at the positions of a set.
    pub fn pick(self, set: u16) -> Signals
        ensures { signals_of result ≡ pick self.count (bit set) (signals_of self) }
    {
        let mut at = [0u8; Signals::MOST];
        let mut count: usize = 0;
        for j in 0..self.count {
            if (set >> j) & 1 == 1 {
                at[count] = self.at[j];
                count += 1;
            }
        }
        Signals { at, count }
    }

    // The first `count` of them.
    pub fn first(mut self, count: usize) -> Signals
        requires { count ≤ self.count }
        ensures { (result.at ≡ self.at) × (result.count ≡ count) }
    {
        self.count = count;
        self
    }

    // One more, appended.
    pub fn with(mut self, signal: u8) -> Signals
        requires { self.count < most_inputs }
        ensures { (signals_of result ≡ signals_of self ++ (signal ∷ [])) × (result.count ≡ self.count + 1) }
    {
        self.at[self.count] = signal;
        self.count += 1;
        self
    }

    // One, two or three more, from a signal on, appended.
    pub fn with_next(self, from: u8, many: u32) -> Signals
        requires { (1 ≤ many) × (many ≤ most_first) × (self.count + many ≤ most_inputs) × (from + many ≤ 255) }
        ensures { (signals_of result ≡ signals_of self ++ list_of many (λ t. from + t))
            × (result.count ≡ self.count + many) }
    {
        let mut signals = self;
        for t in 0..many {
            signals = signals.with(from + t as u8);
        }
        signals
    }

    // A cell that reads them all.
    pub fn cell(self, table: CellTable) -> HeldCell
        requires { self.count ≤ largest_cell }
        ensures { (network_cell result ≡ last_cell (signals_of self) (table_number table)) × (result.k ≡ self.count) }
    {
        let mut signals = [HeldCell::UNUSED; HeldCell::MOST];
        signals[..self.count].copy_from_slice(&self.at[..self.count]);
        HeldCell {
            k: self.count,
            signals,
            table,
        }
    }
}
