// The cells that select one of several signals.
ghost use Rattle.std.specs.Prelude.{◌≡◌, ◌⊎◌, [], ◌∷◌, ◌++◌, ◌+◌, ◌*◌, ◌^◌, ◌<◌, ◌≤◌, leb};
ghost use Rattle.sheets.specs.Edition.{most_records};
ghost use Rattle.sheets.specs.Held.{network_cell, cells_of};
ghost use Rattle.cofactors.specs.Cofactors.{selecting, cells_each, join_of};
ghost use Rattle.making.specs.Stage.{signals_of};
ghost use Rattle.selectors.specs.Standing.{word_cell, spaced, from, Small};

use making::signals::Signals;
use sheets::kinds::{HeldCell, Sheet};
use tables::cell::CellTable;

// The cells so far; so many signals are left to select, from the place `at` on; they select from those at base,
// base + step, ..; the next cell gives signal `next`.
#[derive(Clone, Copy)]
pub struct Stand {
    pub sheet: Sheet,
    pub at: usize,
    pub left: u32,
    pub base: u8,
    pub step: u8,
    pub next: u8,
}

// The tables: of two inputs the one that the first selects; of four the one that the first two do, hexadecimal digit b
// being b; and for cells of two inputs `!q & a`, `q & b` and the OR.
const OF_TWO: u64 = 0xE4;

const OF_FOUR: u64 = 0xFEDC_BA98_7654_3210;

const NOT_AND: u64 = 4;

const AND: u64 = 8;

const OR: u64 = 14;

// A cell with a table of one word.
fn word_cell(k: usize, signals: [u8; HeldCell::MOST], table: u64) -> HeldCell
    ensures { network_cell result ≡ word_cell k signals table }
{
    HeldCell {
        k,
        signals,
        table: CellTable {
            words: [table, 0, 0, 0],
        },
    }
}

// A cell of two inputs.
fn two_cell(x: u8, y: u8, table: u64) -> HeldCell
    ensures { network_cell result ≡ record { signals = x ∷ y ∷ []; table = table } }
{
    let none = HeldCell::UNUSED;
    word_cell(2, [x, y, none, none, none, none, none, none], table)
}

// With cells of two inputs: the signal p selects x or y, in three cells, the first giving signal `next`.
fn by_three(sheet: Sheet, next: u8, p: u8, x: u8, y: u8) -> Sheet
    requires { (sheet.count + 3 ≤ most_records) × (next ≤ 100) }
    ensures { (cells_of result ≡ cells_of sheet ++ (record { signals = p ∷ x ∷ []; table = 4 }
        ∷ record { signals = p ∷ y ∷ []; table = 8 } ∷ record { signals = next ∷ (next + 1) ∷ []; table = 14 } ∷ []))
        × (result.count ≡ sheet.count + 3) }
{
    let one = sheet.with_cell(two_cell(p, x, NOT_AND));
    let two = one.with_cell(two_cell(p, y, AND));
    two.with_cell(two_cell(next, next + 1, OR))
}

// How many cells select one signal.
pub fn cells_each(k: u32) -> u8
    ensures { (result ≡ cells_each (leb 3 k)) × (1 ≤ result) × (result ≤ 3) }
{
    if k < 3 { 3 } else { 1 }
}

// Of the signals base + step * x, base + step * (x + 1), .. the one that the next w signals of l select.
fn select(s: Stand, k: u32, w: u32, l: Signals, x: u8) -> Sheet
    requires { (s.sheet.count + cells_each (leb 3 k) ≤ most_records) × ((w ≡ 1) ⊎ ((w ≡ 2) × (3 ≤ k)))
        × (s.at + w ≤ l.count) × Small s.base s.step s.next × (x ≤ 8) }
    ensures { (cells_of result ≡ cells_of s.sheet ++ selecting (leb 3 k) w s.next (from (signals_of l) s.at)
        (λ t. spaced s.base s.step (x + t)))
        × (result.count ≡ s.sheet.count + cells_each (leb 3 k)) }
{
    let p = l.at[s.at];
    let a = s.base + s.step * x;
    let b = s.base + s.step * (x + 1);
    if k < 3 {
        return by_three(s.sheet, s.next, p, a, b);
    }
    let none = HeldCell::UNUSED;
    if w == 1 {
        return s.sheet.with_cell(word_cell(3, [p, a, b, none, none, none, none, none], OF_TWO));
    }
    let second = l.at[s.at + 1];
    let c = s.base + s.step * (x + 2);
    let d = s.base + s.step * (x + 3);
    s.sheet
        .with_cell(word_cell(6, [p, second, a, b, c, d, none, none], OF_FOUR))
}

// One level: so many groups of 2 ^ w signals each, one cell or three for a group.
pub fn level(s: Stand, k: u32, w: u32, l: Signals, many: u8) -> Sheet
    requires { (s.sheet.count + cells_each (leb 3 k) * many ≤ most_records) × ((w ≡ 1) ⊎ ((w ≡ 2) × (3 ≤ k)))
        × (s.at + w ≤ l.count) × Small s.base s.step (s.next + cells_each (leb 3 k) * many) × (2 ^ w * many ≤ 8) }
    ensures { (cells_of result ≡ cells_of s.sheet ++ join_of many (λ g. selecting (leb 3 k) w (s.next + cells_each (leb 3 k) * g)
        (from (signals_of l) s.at) (λ t. spaced s.base s.step (2 ^ w * g + t))))
        × (result.count ≡ s.sheet.count + cells_each (leb 3 k) * many) }
{
    let each = cells_each(k);
    let mut sheet = s.sheet;
    for g in 0..many {
        let next = s.next + each * g;
        let stand = Stand { sheet, next, ..s };
        sheet = select(stand, k, w, l, g << w);
    }
    sheet
}
