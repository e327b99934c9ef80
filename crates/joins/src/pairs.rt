// Two inputs of what is left of a gate, of which one may stand for both.
ghost use Rattle.std.specs.Prelude.{◌≡◌, ◌||◌, ◌*◌, ◌^◌, ◌<◌, ◌≤◌, length};
ghost use Rattle.tables.specs.Table.{most_inputs, table_bit};
ghost use Rattle.columns.specs.Reading.{Without, alike};
ghost use Rattle.joins.specs.Left.{gate_left, Unfixed, Fixing, value_by, Valued};

use bits::sets::next;
use columns::columns::same_column;
use columns::split::Split;

// The inputs of a gate that are fixed, and the values at which they are; of the others, those of which none can stand
// for another.
#[derive(Clone, Copy, Debug, PartialEq, Eq)]
pub struct Left {
    pub fixed: u16,
    pub at: u32,
    pub decided: u16,
}

// Whether the column read from x on is the one from y on, or the one from z on.
fn among(t: &[u8], s: Split, x: u32, y: u32, z: u32) -> bool
    requires { Without s.n s.free x × Without s.n s.free y × Without s.n s.free z
        × (2 ^ s.n ≤ 8 * length t.now) }
    ensures { result ≡ (alike s.n (table_bit t.now) s.free x y
        || alike s.n (table_bit t.now) s.free x z) }
{
    same_column(t, s, x, y) || same_column(t, s, x, z)
}

// The value of the input at which its two columns, a and b or c and d, are all four.
fn value_by(t: &[u8], s: Split, a: u32, b: u32, c: u32, d: u32) -> Option<bool>
    requires { Without s.n s.free a × Without s.n s.free b × Without s.n s.free c
        × Without s.n s.free d × (2 ^ s.n ≤ 8 * length t.now) }
    ensures { result ≡ value_by (alike s.n (table_bit t.now) s.free) a b c d }
{
    if same_column(t, s, a, b) {
        if among(t, s, a, c, d) {
            Some(true)
        } else {
            None
        }
    } else if among(t, s, d, a, b) && among(t, s, c, a, b) {
        Some(false)
    } else {
        None
    }
}

// The value at which input i can be fixed so that j, a lower one, stands for both.
pub fn joint(t: &[u8], n: u32, g: Left, i: u32, j: u32) -> Option<bool>
    requires { (n ≤ most_inputs) × Fixing n g × (j < i) × Unfixed n g i × Unfixed n g j × (2 ^ n ≤ 8 * length t.now) }
    ensures { Valued n (gate_left n (table_bit t.now) g) i j result }
{
    let own: u16 = (1 << j) + (1 << i);
    let s = Split::of(n, own, g.fixed);
    let one = next(n, own, 0);
    let two = next(n, own, one);
    let three = next(n, own, two);
    value_by(t, s, g.at, g.at + one, g.at + two, g.at + three)
}
