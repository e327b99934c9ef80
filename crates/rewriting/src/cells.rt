// A record of a sheet, held as a cell.
ghost use Rattle.std.specs.Prelude.{◌≡◌, ℕ, ◌+◌, ◌<◌, ◌≤◌, length, get_or};
ghost use Rattle.sheets.specs.Edition.{largest_cell};
ghost use Rattle.sheets.specs.Record.{byte_at, cell_of};
ghost use Rattle.sheets.specs.Held.{network_cell};
ghost use Rattle.runs.specs.Running.{Runnable};

use sheets::kinds::{Edition, HeldCell};
use tables::cell::CellTable;

// The signals of a record, in the first places.
fn signals_of(b: &[u8]) -> [u8; HeldCell::MOST]
    requires { (byte_at b.now 0 ≤ largest_cell) × (byte_at b.now 0 < length b.now) }
    ensures { (j : ℕ) → j < byte_at b.now 0 → get_or result j 0 ≡ byte_at b.now (j + 1) }
{
    let k = b[0] as usize;
    let mut places = [HeldCell::UNUSED; HeldCell::MOST];
    places[..k].copy_from_slice(&b[1..k + 1]);
    places
}

// The cell of a record.
pub fn cell_of(e: Edition, b: &[u8]) -> HeldCell
    requires { Runnable e b.now }
    ensures { (result.k ≤ e.most) × (network_cell result ≡ cell_of e (byte_at b.now)) }
{
    let k = b[0];
    HeldCell {
        k: k as usize,
        signals: signals_of(b),
        table: CellTable::first_of(&b[e.start..], k as u32),
    }
}
