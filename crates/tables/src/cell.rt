// The table of a cell of up to 8 inputs, in words.
ghost use Rattle.std.specs.Prelude.{◌≡◌, ◌+◌, ◌*◌, ◌^◌, ◌<◌, ◌≤◌, length};
ghost use Rattle.bits.specs.Numbers.{bit, number};
ghost use Rattle.tables.specs.Table.{most_inputs, table_bit};
ghost use Rattle.tables.specs.Cells.{cell_words, table_number, no_table, held_table};

use crate::counting::{above_words, word_of};
use crate::fixed::byte_in;

// Bit x is bit x mod 64 of word x div 64. A cell of up to 6 inputs uses the first word alone; the others are then 0.
#[derive(Clone, Copy)]
pub struct CellTable {
    pub words: [u64; CellTable::WORDS],
}

impl CellTable {
    // 8 inputs make 256 bits
    pub const WORDS: usize = 4;

    // No bit is set.
    pub fn zero() -> CellTable
        ensures { result ≡ no_table }
    {
        CellTable {
            words: [0; CellTable::WORDS],
        }
    }

    // Byte i.
    pub fn byte(self, i: usize) -> u8
        requires { i < 8 * cell_words }
        ensures { result ≡ number 8 (λ j. bit (table_number self) (8 * i + j)) }
    {
        byte_in(self.words[i / 8], i)
    }

    // The first 2 ^ k bits of a table.
    pub fn first_of(t: &[u8], k: u32) -> CellTable
        requires { (k ≤ most_inputs) × (2 ^ k ≤ 8 * length t.now) }
        ensures { result ≡ held_table k (table_bit t.now) }
    {
        let many: usize = 1 << above_words(k);
        let held = many.min(CellTable::WORDS);
        let mut words = [0; CellTable::WORDS];
        for (w, word) in words[..held].iter_mut().enumerate() {
            *word = word_of(t, k, w);
        }
        CellTable { words }
    }
}
