// Which records of a sheet are read by a later one.
ghost use Rattle.std.specs.Prelude.{◌≡◌, ℕ, ◌+◌, ◌-◌, ◌*◌, ◌<◌, ◌≤◌, length};
ghost use Rattle.bits.specs.Places.{found_below};
ghost use Rattle.tables.specs.Table.{most_inputs};
ghost use Rattle.sheets.specs.Edition.{IsEdition, most_records};
ghost use Rattle.sheets.specs.Record.{byte_at};
ghost use Rattle.sheets.specs.Sheet.{AllReadable, sheet_cells};
ghost use Rattle.sheets.specs.Reading.{also_read, first_unread};
ghost use Rattle.unread.specs.ReadMasks.{read_mask};

use records::rules::record_of;
use sheets::kinds::Edition;

// The mask w with a bit besides for each signal that a record names.
fn also_read(b: &[u8], w: u32) -> u32
    requires { (byte_at b.now 0 < length b.now) × ((j : ℕ) → j < byte_at b.now 0 → byte_at b.now (j + 1) < 32) }
    ensures { result ≡ also_read (byte_at b.now) w }
{
    let k = b[0] as usize;
    let mut read = w;
    for j in 0..k {
        read |= 1 << b[j + 1];
    }
    read
}

// What a look back over the records sees: the first of them but the last that no later one reads, if there is one, and a
// mask of the signals that they read.
#[derive(Clone, Copy, Debug, PartialEq, Eq)]
pub struct Readers {
    pub first: Option<usize>,
    pub read: u32,
}

// From the last of m records back, so that the mask holds what the later ones read.
pub fn who_reads(e: Edition, n: u32, s: &[u8], m: usize) -> Readers
    requires edition { IsEdition e × (m ≤ most_records) × (n ≤ most_inputs) × (e.size * m ≤ length s.now)
        × AllReadable e s.now m }
    requires le_m { 1 ≤ m }
    ensures { result ≡ record {
      first = found_below (m - 1) (first_unread e n s.now m);
      read = read_mask (sheet_cells e s.now m);
    } }
{
    let last = m - 1;
    let mut first = None;
    let mut read = also_read(record_of(e, s, last), 0);
    for i in (0..last).rev() {
        if (read >> (n + i as u32)) & 1 == 0 {
            first = Some(i);
        }
        read = also_read(record_of(e, s, i), read);
    }
    Readers { first, read }
}
