// Whether a gate is a tree, by joining its inputs from the highest down.
ghost use Rattle.std.specs.Prelude.{◌≡◌, ◌↔◌, true, false, ◌+◌, ◌*◌, ◌^◌, ◌<◌, ◌≤◌, length};
ghost use Rattle.bits.specs.Numbers.{bit};
ghost use Rattle.tables.specs.Table.{most_inputs, table_bit};
ghost use Rattle.tables.specs.Counting.{support};
ghost use Rattle.trees.specs.Tree.{IsTree};
ghost use Rattle.joins.specs.Left.{gate_left, Unfixed, Fixing, one_fixed, one_decided, Partnered, Reduced, DecidedFrom};

use crate::pairs::{Left, joint};
use bits::sets::members;

// An input and the value at which it can be fixed.
#[derive(Clone, Copy, Debug, PartialEq, Eq)]
pub struct Partner {
    pub input: u32,
    pub value: bool,
}

// A decided input for which j, a lower one, can stand too: the highest one.
fn partner_of(t: &[u8], n: u32, g: Left, j: u32) -> Option<Partner>
    requires { (n ≤ most_inputs) × Reduced n (table_bit t.now) g × DecidedFrom n g (j + 1) × Unfixed n g j
        × (2 ^ n ≤ 8 * length t.now) }
    ensures { Partnered n (gate_left n (table_bit t.now) g) g.decided j result }
{
    for i in (0..n).rev() {
        if (g.decided >> i) & 1 == 1 {
            if let Some(value) = joint(t, n, g, i, j) {
                return Some(Partner { input: i, value });
            }
        }
    }
    None
}

// Input i, one of the decided, is fixed at v.
fn fix(n: u32, g: Left, i: u32, v: bool) -> Left
    requires n_le_most_inputs { (n ≤ most_inputs) × Fixing n g × Unfixed n g i × (g.decided < 2 ^ n) }
    requires decided { bit g.decided i ≡ true }
    ensures { result ≡ one_fixed g i v }
{
    let one: u16 = 1 << i;
    Left {
        fixed: g.fixed + one,
        at: g.at + ((v as u32) << i),
        decided: g.decided - one,
    }
}

// Input j is decided too.
fn with_decided(n: u32, g: Left, j: u32) -> Left
    requires { (n ≤ most_inputs) × (g.decided < 2 ^ n) × (j < n) × (bit g.decided j ≡ false) }
    ensures { result ≡ one_decided g j }
{
    Left {
        decided: g.decided + (1 << j),
        ..g
    }
}

// Input j comes to the decided ones: as long as it can stand for one of them too, that one is fixed.
fn decide(t: &[u8], n: u32, start: Left, j: u32) -> Left
    requires { (n ≤ most_inputs) × Reduced n (table_bit t.now) start × DecidedFrom n start (j + 1) × Unfixed n start j
        × (2 ^ n ≤ 8 * length t.now) }
    ensures { Reduced n (table_bit t.now) result × DecidedFrom n result j }
{
    let mut g = start;
    while let Some(p) = partner_of(t, n, g, j) {
        g = fix(n, g, p.input, p.value);
    }
    with_decided(n, g, j)
}

// Whether the gate is a tree of two-input nodes; `counting` has the inputs that count. If so, one of them can stand for
// all; where two are left of which none can stand for the other, no node joins two inputs.
pub fn is_tree(t: &[u8], n: u32, counting: u16) -> bool
    requires { (n ≤ most_inputs) × (2 ^ n ≤ 8 * length t.now) × (counting ≡ support n (table_bit t.now)) }
    ensures { (result ≡ true) ↔ IsTree n (table_bit t.now) }
{
    let all: u32 = (1 << n) - 1;
    let idle = all - counting as u32;
    let mut g = Left {
        fixed: idle as u16,
        at: 0,
        decided: 0,
    };
    for j in (0..n).rev() {
        if (g.fixed >> j) & 1 != 1 {
            g = decide(t, n, g, j);
        }
    }
    members(g.decided) < 2
}
