// Whether two inputs of a table can be swapped: by its columns, 64 assignments at a time.
ghost use Rattle.std.specs.Prelude.{◌≡◌, ◌<◌, ◌≤◌, length};
ghost use Rattle.tables.specs.Table.{most_inputs, table_bit, table_length};
ghost use Rattle.clauses.specs.Swapping.{swappable};

use columns::columns::same_column;
use columns::split::Split;

// Where the two differ the columns must be equal, or else where they agree.
pub fn can_swap(t: &[u8], n: u32, p: u32, q: u32) -> bool
    requires { (n ≤ most_inputs) × (length t.now ≡ table_length n) × (p < q) × (q < n) }
    ensures { result ≡ swappable n (table_bit t.now) p q }
{
    let one: u32 = 1 << p;
    let two: u32 = 1 << q;
    let s = Split::of(n, (one + two) as u16, 0);
    same_column(t, s, one, two) || same_column(t, s, 0, one + two)
}
