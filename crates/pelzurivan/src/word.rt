// A cell's table word by word, as C is handed it.
ghost use Rattle.std.specs.Prelude.{◌≡◌, ◌<◌, get_or};
ghost use Rattle.tables.specs.Cells.{cell_words};

use tables::cell::CellTable;

// Word w of it.
pub fn word(t: CellTable, w: usize) -> u64
    requires { w < cell_words }
    ensures { result ≡ get_or t.words w 0 }
{
    t.words[w]
}
