// Whether a sheet is printed: its records read one or two signals, depend on both of two, and but for the last are each
// read once.
ghost use Rattle.std.specs.Prelude.{◌≡◌, ◌&&◌, ◌+◌, ◌*◌, ◌<◌, ◌≤◌, length};
ghost use Rattle.tables.specs.Table.{most_inputs};
ghost use Rattle.sheets.specs.Edition.{IsEdition, most_records};
ghost use Rattle.sheets.specs.Sheet.{sheet_cells};
ghost use Rattle.sheets.specs.Reading.{reads};
ghost use Rattle.printing.specs.Printable.{AllPlain, all_plain, once_read};

use crate::pairs::{pair_of, plain};
use records::rules::record_of;
use sheets::kinds::Edition;

// Whether each of m records is plain.
fn all_plain(e: Edition, s: &[u8], m: usize) -> bool
    requires { IsEdition e × (m ≤ most_records) × (e.size * m ≤ length s.now) }
    ensures { result ≡ all_plain (sheet_cells e s.now m) }
{
    for i in 0..m {
        if !plain(e, record_of(e, s, i)) {
            return false;
        }
    }
    true
}

// How often m plain records read signal x.
fn reads_in(e: Edition, s: &[u8], m: usize, x: usize) -> usize
    requires { IsEdition e × (m ≤ most_records) × (e.size * m ≤ length s.now) × AllPlain (sheet_cells e s.now m) }
    ensures { result ≡ reads x (sheet_cells e s.now m) }
{
    let mut c = 0;
    for i in 0..m {
        c += pair_of(e, s, i).times(x);
    }
    c
}

// Whether each of m plain records but the last is read once.
fn once_read(e: Edition, n: u32, s: &[u8], m: usize) -> bool
    requires edition { IsEdition e × (m ≤ most_records) × (e.size * m ≤ length s.now) × AllPlain (sheet_cells e s.now m) }
    requires le_m { (1 ≤ m) × (n ≤ most_inputs) }
    ensures { result ≡ once_read n (sheet_cells e s.now m) }
{
    for i in 0..m - 1 {
        if reads_in(e, s, m, n as usize + i) != 1 {
            return false;
        }
    }
    true
}

// Whether a sheet of m records is printed.
pub fn is_printed(e: Edition, n: u32, s: &[u8], m: usize) -> bool
    requires { IsEdition e × (m ≤ most_records) × (e.size * m ≤ length s.now) × (1 ≤ m) × (n ≤ most_inputs) }
    ensures { result ≡ (all_plain (sheet_cells e s.now m) && once_read n (sheet_cells e s.now m)) }
{
    all_plain(e, s, m) && once_read(e, n, s, m)
}
