// The sheet of cofactors: a cell for each cofactor, then level by level the cells that select.
ghost use Rattle.std.specs.Prelude.{◌≡◌, ◌^◌, ◌<◌, ◌≤◌, length};
ghost use Rattle.bits.specs.Numbers.{number};
ghost use Rattle.tables.specs.Table.{most_inputs, table_bit};
ghost use Rattle.tables.specs.Work.{half};
ghost use Rattle.sheets.specs.Edition.{largest_cell};
ghost use Rattle.sheets.specs.Held.{cells_of};
ghost use Rattle.cofactors.specs.Cofactors.{cofactor_cells};
ghost use Rattle.cofactors.specs.Chosen.{Near};
ghost use Rattle.making.specs.Stage.{signals_of};
ghost use Rattle.selectors.specs.Standing.{NextWidth, InRoom, OneLevel};

use crate::cofactor::cofactor_cells;
use crate::select::{Stand, cells_each, level};
use making::signals::Signals;
use sheets::kinds::Sheet;

// How many signals select on the next level.
fn width(k: u32, left: u32) -> u32
    requires { (1 ≤ left) × (left ≤ 3) }
    ensures { NextWidth k left result }
{
    if k < 6 || left < 2 { 1 } else { 2 }
}

// One level more.
fn one_level(k: u32, l: Signals, s: Stand) -> Stand
    requires { (2 ≤ k) × InRoom k l s × (1 ≤ s.left) }
    ensures { OneLevel k l s result }
{
    let w = width(k, s.left);
    let many: u8 = 1 << (s.left - w);
    let each = cells_each(k);
    Stand {
        sheet: level(s, k, w, l, many),
        at: s.at + w as usize,
        left: s.left - w,
        base: s.next + each - 1,
        step: each,
        next: s.next + each * many,
    }
}

// The sheet of cofactors of the table at hand over the signals l of a gate of n inputs.
pub fn cofactor_sheet(t: &[u8], n: u32, l: Signals, k: u32) -> Sheet
    requires { (n ≤ most_inputs) × (2 ≤ k) × (k ≤ largest_cell) × Near k l.count × (length t.now ≡ half) }
    ensures { cells_of result ≡ cofactor_cells k n (signals_of l) (number (2 ^ l.count) (table_bit t.now)) }
{
    let left = l.count as u32 - k;
    let many: u32 = 1 << left;
    let read = l.first(k as usize);
    let mut stand = Stand {
        sheet: cofactor_cells(t, k, read, many),
        at: k as usize,
        left,
        base: n as u8,
        step: 1,
        next: (n + many) as u8,
    };
    while 0 < stand.left {
        stand = one_level(k, l, stand);
    }
    stand.sheet
}
