// What is open in a clause, by the values that stand in front of a work area.
ghost use Rattle.std.specs.Prelude.{◌≡◌, cond, map, ℕ, ◌+◌, ◌*◌, ◌/◌, ◌<◌, ◌≤◌, length};
ghost use Rattle.bits.specs.Lists.{byte_at, list_of};
ghost use Rattle.clauses.specs.declared.variables.Variable.TheVariants.{Reads, Apart};
ghost use Rattle.clauses.specs.declared.variables.Literal.TheVariants.{Said};
ghost use Rattle.clauses.specs.Variables.{Named, variable_of, literal_of, variables};
ghost use Rattle.clauses.specs.Clause.{those, rows_differ, causes, readers};
ghost use Rattle.clauses.specs.Step.{row_at, literals_at, literal_at};
ghost use Rattle.clauses.specs.Shapes.{literals_in, AllNamed};
ghost use Rattle.clauses.specs.Asking.{clause_of};
ghost use Rattle.following.specs.Values.{one_more, seen, open_after, open_in};
ghost use Rattle.following.specs.Standing.{LiteralsIn, CanUse};

use clauses::fields::given_at;
use clauses::numbers::{four_at, two_at};
use clauses::shapes::Shape;
use clauses::task::Task;
use clauses::variables::Literal::{self, Denied, Said};
use clauses::variables::Variable::{Apart, Differ, Reads};

// The literals of a clause that aren't false: none, one, or several.
#[derive(Clone, Copy)]
pub enum Open {
    Nothing,
    One(usize),
    Several,
}

// One literal more that isn't false.
fn one_more(l: usize, o: Open) -> Open
    ensures { result ≡ one_more l o }
{
    match o {
        Open::Nothing => Open::One(l),
        Open::One(_) | Open::Several => Open::Several,
    }
}

// A task whose clauses are read under values of its variables.
#[derive(Clone, Copy)]
pub struct Reading<'a> {
    pub task: Task<'a>,
    pub values: &'a [u8],
    // each variable has a value
    pub ghost room: { variables task.size ≤ length values.now },
}

impl Reading<'_> {
    ghost use Rattle.following.specs.Opened.{opened, opened_after};

    // One literal more.
    fn see(&self, l: usize, o: Open) -> Open
        requires { l / 2 < length self.now.values.now }
        ensures { result ≡ seen (byte_at self.now.values.now) l o }
    {
        if usize::from(self.values[l / 2]) == 2 - l % 2 {
            o
        } else {
            one_more(l, o)
        }
    }

    // A literal more, by its name.
    fn see_named(&self, l: Literal, o: Open) -> Open
        requires { Named self.now.task.size (variable_of l) }
        ensures { result ≡ seen (byte_at self.now.values.now) (literal_of self.now.task.size l) o }
    {
        self.see(self.task.literal_of(l), o)
    }

    // The inputs that a cell may read at which two rows differ.
    fn open_inputs(&self, i: usize, a: usize, b: usize, start: Open) -> Open
        requires { (i < self.now.task.size.cells) × (a < self.now.task.size.rows) × (b < self.now.task.size.rows) }
        ensures { result ≡ opened_after self.now start
            (those self.now.task.size.inputs (rows_differ (row_at self.now.task.certificate.now) a b)
            (λ p. Said (Reads i p))) }
    {
        let x = self.task.row_at(a);
        let y = self.task.row_at(b);
        let mut o = start;
        for p in 0..self.task.size.inputs {
            let differ = (x >> p) & 1 != (y >> p) & 1;
            if differ {
                o = self.see_named(Said(Reads(i, p)), o);
            }
        }
        o
    }

    // The cells that a cell may read.
    fn open_cells(&self, i: usize, a: usize, b: usize, start: Open) -> Open
        requires { (i < self.now.task.size.cells) × (a < self.now.task.size.rows) × (b < self.now.task.size.rows) }
        ensures { result ≡ opened_after self.now start (list_of i (λ j. Said (Apart i j a b))) }
    {
        let mut o = start;
        for j in 0..i {
            o = self.see_named(Said(Apart(i, j, a, b)), o);
        }
        o
    }

    // Why a cell differs at two rows.
    fn open_causes(&self, i: usize, a: usize, b: usize) -> Open
        requires { (i < self.now.task.size.cells) × (a < self.now.task.size.rows) × (b < self.now.task.size.rows) }
        ensures { result ≡ opened self.now
            (causes self.now.task.size (row_at self.now.task.certificate.now) i a b) }
    {
        let o = self.see_named(Denied(Differ(i, a, b)), Open::Nothing);
        let o = self.open_inputs(i, a, b, o);
        self.open_cells(i, a, b, o)
    }

    // The cells that may read one.
    fn open_readers(&self, i: usize) -> Open
        ensures { result ≡ opened self.now (readers self.now.task.size i) }
    {
        let mut o = Open::Nothing;
        for k in 0..self.task.size.cells.saturating_sub(i.saturating_add(1)) {
            o = self.see_named(Said(Reads(i + 1 + k, self.task.size.inputs + i)), o);
        }
        o
    }

    // A clause of kinds 1 to 14.
    fn open_shape(&self, s: Shape) -> Open
        requires { AllNamed self.now.task.size
            (literals_in self.now.task.size (row_at self.now.task.certificate.now) s) }
        ensures { result ≡ opened self.now
            (literals_in self.now.task.size (row_at self.now.task.certificate.now) s) }
    {
        match s {
            Shape::One(a) => self.see_named(a, Open::Nothing),
            Shape::Two(a, b) => {
                let o = self.see_named(a, Open::Nothing);
                self.see_named(b, o)
            }
            Shape::Three(a, b, d) => {
                let o = self.see_named(a, Open::Nothing);
                let o = self.see_named(b, o);
                self.see_named(d, o)
            }
            Shape::Causes(i, a, b) => self.open_causes(i, a, b),
            Shape::Readers(i) => self.open_readers(i),
        }
    }

    // A clause of kind 0.
    fn open_derived(&self, at: usize) -> Open
        requires { LiteralsIn (length self.now.values.now) self.now.task.certificate.now at }
        ensures { result ≡ open_in (byte_at self.now.values.now)
            (list_of (literals_at self.now.task.certificate.now at) (literal_at self.now.task.certificate.now at)) }
    {
        let c = self.task.certificate;
        let many = two_at(c, at + 1);
        let mut o = Open::Nothing;
        for k in 0..many {
            o = self.see(four_at(c, at + 3 + 4 * k), o);
        }
        o
    }

    // The clause of an earlier step.
    pub fn open_at(&self, at: usize) -> Open
        requires { CanUse self.now.task at }
        ensures { result ≡ open_in (byte_at self.now.values.now) (clause_of self.now.task at) }
    {
        let c = self.task.certificate;
        if c[at] == 0 {
            self.open_derived(at)
        } else {
            self.open_shape(self.task.shape_of(given_at(c, at)))
        }
    }
}
