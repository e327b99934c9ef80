// A certificate's header.
ghost use Rattle.std.specs.Prelude.{◌≡◌, ◌+◌, ◌*◌, ◌^◌, ◌≤◌, ltb, length};
ghost use Rattle.bits.specs.Below.{every};
ghost use Rattle.tables.specs.Table.{most_inputs};
ghost use Rattle.clauses.specs.Step.{row_at};
ghost use Rattle.refuting.specs.Steps.{header_in_order};

use clauses::numbers::two_at;

// A certificate names at most so many rows.
const MOST_ROWS: usize = 512;

// Whether each of so many rows is an assignment of n inputs.
fn rows_below(n: u32, c: &[u8], many: usize) -> bool
    requires { (n ≤ most_inputs) × (2 + 2 * many ≤ length c.now) }
    ensures { result ≡ every many (λ a. ltb (row_at c.now a) (2 ^ n)) }
{
    let end: usize = 1 << n;
    for a in 0..many {
        if end <= two_at(c, 2 + 2 * a) {
            return false;
        }
    }
    true
}

// Whether the header is in order.
pub fn header_in_order(n: u32, c: &[u8]) -> bool
    requires { n ≤ most_inputs }
    ensures { result ≡ header_in_order n c.now }
{
    let many = c.len();
    if many < 2 {
        return false;
    }
    let rows = two_at(c, 0);
    match rows {
        1..=MOST_ROWS => 2 * rows <= many - 2 && rows_below(n, c, rows),
        _ => false,
    }
}
