// Cells of one or two signals, and how their tables are printed.
ghost use Rattle.std.specs.Prelude.{◌≡◌, ◌+◌, ◌*◌, ◌<◌, ◌≤◌, length};
ghost use Rattle.sheets.specs.Edition.{IsEdition, most_records};
ghost use Rattle.sheets.specs.Record.{byte_at, cell_of};
ghost use Rattle.sheets.specs.Sheet.{record_at};
ghost use Rattle.sheets.specs.Reading.{times};
ghost use Rattle.printing.specs.Forms.{form_of};
ghost use Rattle.printing.specs.Printable.{Plain, plain_cell};
ghost use Rattle.printing.specs.Pairs.{pair_cell, Formed};

use records::rules::record_of;
use sheets::kinds::Edition;

// What a cell reads, with its table: a signal, or the lower of two and the other.
#[derive(Clone, Copy, Debug, PartialEq, Eq)]
pub enum PlainCell {
    One {
        signal: usize,
        table: usize,
    },
    Two {
        low: usize,
        high: usize,
        table: usize,
    },
}

// How a table of two signals is printed: whether `!` stands before the lower one, the mark, and whether `!` stands
// before the other.
#[derive(Clone, Copy, Debug, PartialEq, Eq)]
pub struct Form {
    pub not_low: bool,
    pub mark: u8,
    pub not_high: bool,
}

// The form of a table of two signals, if it depends on both.
pub fn form_of(table: usize) -> Option<Form>
    requires { table < 16 }
    ensures { result ≡ form_of table }
{
    let (not_low, mark, not_high) = match table {
        0x1 => (true, b'&', true),
        0x2 => (false, b'&', true),
        0x4 => (true, b'&', false),
        0x6 => (false, b'^', false),
        0x7 => (true, b'|', true),
        0x8 => (false, b'&', false),
        0x9 => (false, b'^', true),
        0xB => (false, b'|', true),
        0xD => (true, b'|', false),
        0xE => (false, b'|', false),
        _ => return None,
    };
    Some(Form {
        not_low,
        mark,
        not_high,
    })
}

// Whether a record reads one signal, or two and depends on both.
pub fn plain(e: Edition, b: &[u8]) -> bool
    requires { IsEdition e × (length b.now ≡ e.size) }
    ensures { result ≡ plain_cell (cell_of e (byte_at b.now)) }
{
    let start = e.start;
    match b[0] {
        1 => true,
        2 => form_of((b[start] % 16) as usize).is_some(),
        _ => false,
    }
}

// The cell of such a record.
fn pair_in(e: Edition, b: &[u8]) -> PlainCell
    requires { IsEdition e × (length b.now ≡ e.size) × Plain (cell_of e (byte_at b.now)) }
    ensures { (pair_cell result ≡ cell_of e (byte_at b.now)) × Formed result }
{
    let start = e.start;
    if b[0] == 1 {
        return PlainCell::One {
            signal: b[1] as usize,
            table: (b[start] % 4) as usize,
        };
    }
    PlainCell::Two {
        low: b[1] as usize,
        high: b[2] as usize,
        table: (b[start] % 16) as usize,
    }
}

// The cell of record i.
pub fn pair_of(e: Edition, s: &[u8], i: usize) -> PlainCell
    requires { IsEdition e × (i < most_records) × (e.size * i + e.size ≤ length s.now)
        × Plain (cell_of e (record_at e s.now i)) }
    ensures { (pair_cell result ≡ cell_of e (record_at e s.now i)) × Formed result }
{
    pair_in(e, record_of(e, s, i))
}

impl PlainCell {
    // How often it reads signal x.
    pub fn times(self, x: usize) -> usize
        ensures { (result ≡ times x (pair_cell self).signals) × (result ≤ 2) }
    {
        match self {
            PlainCell::One { signal, .. } => (x == signal) as usize,
            PlainCell::Two { low, high, .. } => (x == low) as usize + (x == high) as usize,
        }
    }
}
