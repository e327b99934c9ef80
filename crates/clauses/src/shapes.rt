// The clause of a step as literals: at most three of them, or one of two lists.
ghost use Rattle.std.specs.Prelude.{◌≡◌, true, ℕ, [], ◌∷◌, ◌<◌, length};
ghost use Rattle.std.specs.Bool.{beq};
ghost use Rattle.tables.specs.Table.{table_bit, table_length};
ghost use Rattle.clauses.specs.declared.variables.Size.{Size};
ghost use Rattle.clauses.specs.declared.variables.Variable.TheVariants.{Same};
ghost use Rattle.clauses.specs.declared.variables.Literal.TheVariants.{Denied};
ghost use Rattle.clauses.specs.Variables.{IsSize};
ghost use Rattle.clauses.specs.Clause.{clause, in_order, evenly, as_table};
ghost use Rattle.clauses.specs.Step.{row_at};
ghost use Rattle.clauses.specs.Asking.{question_of, given_in_order};
ghost use Rattle.clauses.specs.Shapes.{literals_in, HasRows};

use crate::given::Given;
use crate::numbers::two_at;
use crate::task::Task;
use crate::variables::Literal::{self, Denied, Said};
use crate::variables::Size;
use crate::variables::Variable::{self, Apart, Differ, Many, Reads, Same};
use tables::bit_at;

// A clause of one, two or three literals; why a cell differs at two rows; the cells that may read one.
#[derive(Clone, Copy)]
pub enum Shape {
    One(Literal),
    Two(Literal, Literal),
    Three(Literal, Literal, Literal),
    Causes(usize, usize, usize),
    Readers(usize),
}

// Kind 8.
fn even_shape(d: Variable, x: Variable, y: Variable, s: usize) -> Shape
    ensures { (z : Size) (row : ℕ → ℕ) → literals_in z row result ≡ evenly d x y s }
{
    match s {
        0 => Shape::Three(Denied(d), Said(x), Said(y)),
        1 => Shape::Three(Denied(d), Denied(x), Denied(y)),
        2 => Shape::Three(Said(d), Denied(x), Said(y)),
        _ => Shape::Three(Said(d), Said(x), Denied(y)),
    }
}

// Kind 9.
fn table_shape(same: bool, x: Variable) -> Shape
    ensures { (z : Size) (row : ℕ → ℕ) → literals_in z row result ≡ as_table same x }
{
    Shape::One(if same { Denied(x) } else { Said(x) })
}

// Kinds 12 to 14: two swappable inputs that each cell below i reads both or neither of, and two literals more.
fn same_shape(p: usize, q: usize, i: usize, a: Literal, b: Literal) -> Shape
    ensures { (z : Size) (row : ℕ → ℕ) → literals_in z row result ≡ Denied (Same p q i) ∷ a ∷ b ∷ [] }
{
    Shape::Three(Denied(Same(p, q, i)), a, b)
}

impl Size {
    // Row a of a certificate.
    pub fn row_at(self, c: &[u8], a: usize) -> u32
        requires { IsSize self × HasRows self c.now × (a < self.rows) }
        ensures { result ≡ row_at c.now a }
    {
        two_at(c, 2 + 2 * a) as u32
    }
}

impl Task<'_> {
    // Row a of the certificate.
    pub fn row_at(&self, a: usize) -> u32
        requires { a < self.now.size.rows }
        ensures { result ≡ row_at self.now.certificate.now a }
    {
        self.size.row_at(self.certificate, a)
    }

    // Whether the table's bits at two rows are the same.
    #[tactic(auto, using(crate::proofs::Rows::bit_room))]
    fn same_bits(&self, a: usize, b: usize) -> bool
        requires { (a < self.now.size.rows) × (b < self.now.size.rows) }
        ensures { result ≡ beq (table_bit self.now.table.now (row_at self.now.certificate.now a))
            (table_bit self.now.table.now (row_at self.now.certificate.now b)) }
    {
        bit_at(self.table, self.row_at(a)) == bit_at(self.table, self.row_at(b))
    }

    // The clause of a step that is in order.
    #[tactic(auto, unfolding(crate::specs::Clause::clause, crate::specs::Clause::in_order))]
    pub fn shape_of(&self, g: Given) -> Shape
        requires { given_in_order self.now g ≡ true }
        ensures { literals_in self.now.size (row_at self.now.certificate.now) result
            ≡ clause (question_of self.now) g }
    {
        let z = self.size;
        match g {
            Given::OneMore(i, p, k) => Shape::Three(
                Denied(Reads(i, p)),
                Denied(Many(i, p, k)),
                Said(Many(i, p + 1, k + 1)),
            ),
            Given::AsMany(i, p, k) => Shape::Two(Denied(Many(i, p, k)), Said(Many(i, p + 1, k))),
            Given::None(i) => Shape::One(Said(Many(i, 0, 0))),
            Given::Most(i) => Shape::One(Denied(Many(i, z.inputs + i, z.cell + 1))),
            Given::Cause(i, a, b) => Shape::Causes(i, a, b),
            Given::Read(i, j, a, b) => Shape::Two(
                Denied(Apart(i, j, a, b)),
                Said(Reads(i, z.inputs + j)),
            ),
            Given::Differs(i, j, a, b) => Shape::Two(
                Denied(Apart(i, j, a, b)),
                Said(Differ(j, a, b)),
            ),
            Given::Even(i, a, b, s) => even_shape(
                Differ(i, a, b),
                Differ(i, 0, a),
                Differ(i, 0, b),
                s,
            ),
            Given::Table(a, b) => table_shape(self.same_bits(a, b), Differ(z.cells - 1, a, b)),
            Given::Used(i) => Shape::Readers(i),
            Given::Swap(p, q) => Shape::One(Said(Same(p, q, 0))),
            Given::Sorted(p, q, i) => same_shape(p, q, i, Denied(Reads(i, q)), Said(Reads(i, p))),
            Given::Both(p, q, i) => same_shape(
                p,
                q,
                i,
                Denied(Reads(i, q)),
                Said(Same(p, q, i + 1)),
            ),
            Given::Neither(p, q, i) => same_shape(
                p,
                q,
                i,
                Said(Reads(i, p)),
                Said(Same(p, q, i + 1)),
            ),
        }
    }
}
