// The fixed answer to a split: the first cells' tables, and H stored into a lent room.
ghost use Rattle.std.specs.Prelude.{◌≡◌, true, ◌*◌, ◌^◌, ◌≤◌, length};
ghost use Rattle.bits.specs.Numbers.{bit};
ghost use Rattle.tables.specs.Table.{most_inputs, table_length, table_bit};
ghost use Rattle.splits.specs.Columns.{most_first, few_columns};
ghost use Rattle.splits.specs.Pair.{inputs_h, bytes_h};
ghost use Rattle.charts.specs.Cells.{first_cells};
ghost use Rattle.columns.specs.Reading.{Chart};
ghost use Rattle.best.specs.Best.{Candidate};
ghost use Rattle.sheets.specs.Edition.{largest_cell};
ghost use Rattle.refusals.specs.Lent.{into};

use charts::pair;
use charts::pair::FirstCells;
use columns::split::Split;

// The bytes of H's table, from the chart of its columns, into the start of a room.
fn store_h<'a>(t: &'a [u8], s: Split, r: u32, seen: &'a [u16], end: usize, room: &mut [u8])
    requires n_bound { (2 ^ s.n ≤ 8 * length t.now) × Chart s (table_bit t.now) (2 ^ r) seen.now
        × (r ≤ most_first) × (end ≤ length room.old) × (end ≤ table_length most_inputs) }
    requires end_value { end ≡ table_length (inputs_h s.n (table_bit t.now) (bit s.own) (bit s.shared) r) }
    ensures { room.new
        ≡ into (bytes_h s.n (table_bit t.now) (bit s.own) (bit s.shared) r) room.old }
{
    let limit: usize = 1 << r;
    for i in 0..end {
        room[i] = pair::h_byte(t, s, limit, seen, i as u32);
    }
}

// The first cells' tables of a split that is possible with r of them, and H's table into the start of a room; the
// bytes past it stay.
pub fn put_pair(t: &[u8], s: Split, r: u32, end: usize, room: &mut [u8]) -> FirstCells
    requires n_bound { (2 ^ s.n ≤ 8 * length t.now) × Candidate s.n largest_cell r s.own s.shared
        × (r ≤ most_first) × (end ≤ length room.old) × (end ≤ table_length most_inputs) }
    requires end_value { end ≡ table_length (inputs_h s.n (table_bit t.now) (bit s.own) (bit s.shared) r) }
    requires r_value { few_columns s.n (table_bit t.now) (bit s.own) (bit s.shared) (2 ^ r) ≡ true }
    ensures { (result ≡ first_cells s.n (table_bit t.now) (bit s.own) (bit s.shared) r)
        × (room.new
        ≡ into (bytes_h s.n (table_bit t.now) (bit s.own) (bit s.shared) r) room.old) }
{
    let mut seen = pair::blank();
    pair::chart(t, s, 1 << r, &mut seen);
    store_h(t, s, r, &seen, end, room);
    pair::first_cells(t, s, r, &seen)
}
