// The cofactors of the table at hand, read where they lie: whole words of it, or parts of one.
ghost use Rattle.std.specs.Prelude.{◌≡◌, ◌+◌, ◌*◌, ◌^◌, ◌<◌, ◌≤◌, length};
ghost use Rattle.bits.specs.Lists.{list_of};
ghost use Rattle.tables.specs.Table.{most_inputs, table_bit};
ghost use Rattle.tables.specs.Words.{gate_word};
ghost use Rattle.tables.specs.Cells.{held_table};
ghost use Rattle.tables.specs.Work.{half};
ghost use Rattle.sheets.specs.Edition.{largest_cell, most_records};
ghost use Rattle.sheets.specs.Held.{cells_of};
ghost use Rattle.making.specs.Stage.{signals_of};
ghost use Rattle.selectors.specs.Standing.{part_bit, part_cell};

use making::signals::Signals;
use sheets::kinds::Sheet;
use tables::cell::CellTable;
use tables::words::bits_from;

// Word w of the table of k inputs that is part v of a table; 0 past its end.
fn part_word(t: &[u8], k: u32, v: u32, w: u32) -> u64
    requires { (k ≤ largest_cell) × (v * 2 ^ k + 2 ^ k ≤ 2 ^ most_inputs) × (length t.now ≡ half) × (w < 4) }
    ensures { result ≡ gate_word k (part_bit t.now k v) w }
{
    let end: u32 = 1 << k;
    if end <= 64 * w {
        return 0;
    }
    let word = bits_from(t, (v << k) + 64 * w);
    if 6 <= k {
        return word;
    }
    word % (1u64 << end)
}

// Part v of a table, as a cell's.
fn part_table(t: &[u8], k: u32, v: u32) -> CellTable
    requires { (k ≤ largest_cell) × (v * 2 ^ k + 2 ^ k ≤ 2 ^ most_inputs) × (length t.now ≡ half) }
    ensures { result ≡ held_table k (part_bit t.now k v) }
{
    let mut words = [0; CellTable::WORDS];
    for w in 0..CellTable::WORDS {
        words[w] = part_word(t, k, v, w as u32);
    }
    CellTable { words }
}

// A cell for each of the first `many` parts, over the same k signals.
pub fn cofactor_cells(t: &[u8], k: u32, read: Signals, many: u32) -> Sheet
    requires { (k ≤ largest_cell) × (many * 2 ^ k ≤ 2 ^ most_inputs) × (length t.now ≡ half)
        × (read.count ≡ k) × (many ≤ most_records) }
    ensures { (cells_of result ≡ list_of many (part_cell (signals_of read) t.now k)) × (result.count ≡ many) }
{
    let mut sheet = Sheet::empty();
    for v in 0..many {
        sheet = sheet.with_cell(read.cell(part_table(t, k, v)));
    }
    sheet
}
