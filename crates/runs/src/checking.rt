// A sheet held against a table, 64 assignments at a time.
ghost use Rattle.std.specs.Prelude.{◌≡◌, ◌≢◌, true, ◌*◌, ◌^◌, ◌<◌, ◌≤◌, length};
ghost use Rattle.bits.specs.Places.{found_below};
ghost use Rattle.bits.specs.Below.{least};
ghost use Rattle.tables.specs.Table.{most_inputs, table_length, spare_clear};
ghost use Rattle.sheets.specs.Edition.{IsEdition, most_records};
ghost use Rattle.sheets.specs.Sheet.{AllReadable};
ghost use Rattle.runs.specs.Checking.{apart, first_difference};

use crate::words::sheet_word;
use sheets::kinds::Edition;
use tables::words::bits_from;

// The lowest place at which two different words differ.
fn first_apart(a: u64, b: u64) -> u32
    requires { a ≢ b }
    ensures { (result ≡ least 64 (apart a b)) × (result < 64) }
{
    (a ^ b).trailing_zeros()
}

// The least assignment at which the sheet of m records doesn't give the table's bit, if there is one.
pub fn first_difference<'a>(e: Edition, n: u32, s: &'a [u8], m: usize, t: &'a [u8]) -> Option<u32>
    requires edition { IsEdition e × (m ≤ most_records) × (n ≤ most_inputs) × (e.size * m ≤ length s.now) × AllReadable e s.now m }
    requires t_len { (length t.now ≡ table_length n) × (spare_clear n t.now ≡ true) }
    ensures { result ≡ found_below (2 ^ n) (first_difference e n s.now m t.now) }
{
    // a table of fewer than 64 bits lies in one word
    let words: u32 = 1 << n.saturating_sub(6);
    for w in 0..words {
        let given = sheet_word(e, n, s, m, w);
        let asked = bits_from(t, 64 * w);
        if given != asked {
            return Some(64 * w + first_apart(given, asked));
        }
    }
    None
}
