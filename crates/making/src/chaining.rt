// Making a sheet: best splits while the list of signals is longer than K, and at last what remains as the final cell.
ghost use Rattle.std.specs.Prelude.{◌≡◌, true, ◌+◌, ◌*◌, ◌^◌, ◌<◌, ◌≤◌, length};
ghost use Rattle.bits.specs.Numbers.{bit, number};
ghost use Rattle.bits.specs.Lists.{list_of};
ghost use Rattle.tables.specs.Table.{most_inputs, table_length, table_bit};
ghost use Rattle.splits.specs.Columns.{most_first, few_columns};
ghost use Rattle.columns.specs.Reading.{Chart};
ghost use Rattle.best.specs.Best.{Candidate};
ghost use Rattle.sheets.specs.Edition.{largest_cell};
ghost use Rattle.chains.specs.Chain.{stuck, chain};
ghost use Rattle.making.specs.Stage.{signals_of};
ghost use Rattle.making.specs.Area.{at_hand};
ghost use Rattle.tables.specs.Work.{work_length};
ghost use Rattle.making.specs.Pile.{most_piled, Grown};
ghost use Rattle.making.specs.Chaining.{d_cell, Stepped, Tells, ChainedUpTo};

use crate::area::next_table;
use crate::pile::Pile;
use crate::signals::Signals;
use charts::pair::{blank, chart, first_cells};
use choices::over::find_upto;
use columns::split::Split;
use sheets::kinds::Sheet;
use tables::aside::set_aside;
use tables::cell::CellTable;
use tables::counting::kept_of;
use tables::{HALF, clear};

// Of a chain that came to its end: how many cells it has, and a sheet of them, if it has room for them.
#[derive(Clone, Copy)]
pub struct ChainEnd {
    pub count: usize,
    pub sheet: Sheet,
}

// The cells so far, and the signals of the table at hand.
#[derive(Clone, Copy)]
pub struct Stage {
    pub pile: Pile,
    pub signals: Signals,
}

// The first cells of a split of the table t over the signals, by the chart of its columns, on the pile.
fn pile_first<'a>(
    pile: Pile,
    t: &'a [u8],
    signals: Signals,
    s: Split,
    r: u32,
    seen: &'a [u16],
) -> Pile
    requires n_value { (s.n ≡ signals.count) × (2 ^ s.n ≤ 8 * length t.now) × (1 ≤ r) × (r ≤ most_first)
        × Candidate s.n largest_cell r s.own s.shared }
    requires chart { Chart s (table_bit t.now) (2 ^ r) seen.now }
    requires room { (pile.count + r ≤ most_piled)
        × (few_columns s.n (table_bit t.now) (bit s.own) (bit s.shared) (2 ^ r) ≡ true) }
    ensures { Grown pile (list_of r (d_cell s (table_bit t.now) (signals_of signals))) result }
{
    let tables = first_cells(t, s, r, seen);
    let read = signals.pick(s.own + s.shared);
    pile.with_first(read, r, tables)
}

// One split: its first cells are the next cells, A's signals go, the cells' own signals come last, and H is the table
// at hand.
fn step(stage: Stage, next: u8, s: Split, r: u32, work: &mut [u8]) -> Stage
    requires n_value { (s.n ≡ stage.signals.count) × (work_length ≤ length work.old)
        × (1 ≤ r) × (r ≤ most_first) × Candidate s.n largest_cell r s.own s.shared }
    requires room { (stage.pile.count + r ≤ most_piled) × (next + r ≤ 255)
        × (few_columns s.n (at_hand work.old) (bit s.own) (bit s.shared) (2 ^ r) ≡ true) }
    ensures { Stepped stage next r s work.old result work.new }
{
    let mut seen = blank();
    chart(&work[..HALF], s, 1 << r, &mut seen);
    let pile = pile_first(stage.pile, &work[..HALF], stage.signals, s, r, &seen);
    let left = stage.signals.pick(s.shared + s.free);
    let signals = left.with_next(next, r);
    next_table(work, s, r, &seen, signals.count as u32);
    Stage { pile, signals }
}

// The chain of the table in the work area over some of a gate's n signals, with up to `most` first cells at each step.
fn follow(n: u32, start: Signals, most: u32, k: u32, work: &mut [u8]) -> Option<ChainEnd>
    requires n_le_most_inputs { (n ≤ most_inputs) × (most ≤ most_first) × (2 ≤ k) × (k ≤ largest_cell)
        × (work_length ≤ length work.old) }
    requires some { (1 ≤ start.count) × (start.count ≤ n) }
    ensures { Tells result (chain most n k n (signals_of start) (number (2 ^ start.count) (at_hand work.old))) }
{
    let mut stage = Stage {
        pile: Pile::empty(),
        signals: start,
    };
    while (k as usize) < stage.signals.count {
        let m = stage.signals.count as u32;
        let found = find_upto(&work[..HALF], m, most, k)?;
        let s = Split::of(m, found.own, found.shared);
        let next = n as usize + stage.pile.count;
        stage = step(stage, next as u8, s, found.first, work);
    }
    let last = stage.signals.cell(CellTable::first_of(&work[..HALF], stage.signals.count as u32));
    let whole = stage.pile.with_cell(last);
    Some(ChainEnd {
        count: whole.count,
        sheet: whole.sheet,
    })
}

// The cells of a gate's table, with up to `most` first cells at each step: the inputs that do not count are set aside,
// once, since every later table counts all of its own.
pub fn chain_upto(t: &[u8], n: u32, most: u32, k: u32, work: &mut [u8]) -> Option<ChainEnd>
    requires { (1 ≤ n) × (n ≤ most_inputs) × (most ≤ most_first) × (2 ≤ k) × (k ≤ largest_cell)
        × (length t.now ≡ table_length n) × (work_length ≤ length work.old) }
    ensures { ChainedUpTo most n k t.now work.old result work.new }
{
    let kept = kept_of(t, n);
    set_aside(t, n, kept, work);
    let signals = Signals::inputs(n).pick(kept);
    let end = follow(n, signals, most, k, work);
    clear(work);
    end
}
