// The variables, and their numbers.
ghost use Rattle.std.specs.Prelude.{◌≡◌, ◌+◌, ◌*◌, ◌<◌};
ghost use Rattle.clauses.specs.Variables.{IsSize, Named, number_of, literal_of, variable_of, variables, number_limit};
ghost use Rattle.clauses.specs.Variables.{differ_from, apart_from, same_from};
ghost use Rattle.clauses.specs.declared.variables.Variable.TheVariants.{Reads, Many, Differ, Apart, Same};

use crate::task::Task;

// What a certificate speaks of: n inputs, cells of at most K inputs, m cells, and how many rows the certificate names.
#[derive(Clone, Copy)]
pub struct Size {
    pub inputs: usize,
    pub cell: usize,
    pub cells: usize,
    pub rows: usize,
}

// What is said of a network, i and j being cells, p and q signals, a and b rows: cell i reads signal p; cell i reads at
// least t of the signals below p; cell i gives different bits at the rows a and b; cell i reads cell j, and that one
// does; the inputs p and q are swappable, and each cell below i reads both or neither.
#[derive(Clone, Copy)]
pub enum Variable {
    Reads(usize, usize),
    Many(usize, usize, usize),
    Differ(usize, usize, usize),
    Apart(usize, usize, usize, usize),
    Same(usize, usize, usize),
}

// A variable, said or denied.
#[derive(Clone, Copy)]
pub enum Literal {
    Said(Variable),
    Denied(Variable),
}

impl Size {
    // Where the variables begin that say at which rows a cell differs.
    #[tactic(auto, unfolding(crate::specs::Variables::reads_many, crate::specs::Variables::many_many))]
    fn differ_from(self) -> usize
        requires { IsSize self }
        ensures { result ≡ differ_from self }
    {
        self.cells * (self.inputs + self.cells)
            + self.cells * (self.inputs + self.cells + 1) * (self.cell + 2)
    }

    // Where those begin that say at which rows a cell that it reads does.
    #[tactic(auto, using(crate::proofs::Sizes::from), unfolding(crate::specs::Variables::differ_many))]
    fn apart_from(self) -> usize
        requires { IsSize self }
        ensures { result ≡ apart_from self }
    {
        self.differ_from() + self.cells * self.rows * self.rows
    }

    // Where those begin that say which inputs the same cells read.
    #[tactic(auto, using(crate::proofs::Sizes::from), unfolding(crate::specs::Variables::apart_many))]
    fn same_from(self) -> usize
        requires { IsSize self }
        ensures { result ≡ same_from self }
    {
        self.apart_from() + self.cells * self.cells * self.rows * self.rows
    }

    // How many there are in all.
    #[tactic(auto, using(crate::proofs::Sizes::variables_most), unfolding(crate::specs::Variables::same_many))]
    pub fn all_variables(self) -> usize
        requires { IsSize self }
        ensures { (result ≡ variables self) × (result < number_limit) }
    {
        self.same_from() + self.inputs * self.inputs * (self.cells + 1)
    }

    // Cell i reads signal p.
    #[tactic(auto, unfolding(crate::specs::Variables::number_of))]
    fn reads(self, i: usize, p: usize) -> usize
        requires { IsSize self × Named self (Reads i p) }
        ensures { result ≡ number_of self (Reads i p) }
    {
        i * (self.inputs + self.cells) + p
    }

    // Cell i reads at least t of the signals below p.
    #[tactic(auto, unfolding(crate::specs::Variables::number_of, crate::specs::Variables::reads_many))]
    fn many(self, i: usize, p: usize, t: usize) -> usize
        requires { IsSize self × Named self (Many i p t) }
        ensures { result ≡ number_of self (Many i p t) }
    {
        self.cells * (self.inputs + self.cells)
            + ((i * (self.inputs + self.cells + 1) + p) * (self.cell + 2) + t)
    }

    // Cell i gives different bits at the rows a and b.
    #[tactic(auto, using(crate::proofs::Sizes::from), unfolding(crate::specs::Variables::number_of))]
    fn differ(self, i: usize, a: usize, b: usize) -> usize
        requires { IsSize self × Named self (Differ i a b) }
        ensures { result ≡ number_of self (Differ i a b) }
    {
        self.differ_from() + ((i * self.rows + a) * self.rows + b)
    }

    // Cell i reads cell j, and that one does.
    #[tactic(auto, using(crate::proofs::Sizes::from), unfolding(crate::specs::Variables::number_of))]
    fn apart(self, i: usize, j: usize, a: usize, b: usize) -> usize
        requires { IsSize self × Named self (Apart i j a b) }
        ensures { result ≡ number_of self (Apart i j a b) }
    {
        self.apart_from() + (((i * self.cells + j) * self.rows + a) * self.rows + b)
    }

    // The inputs p and q are swappable, and each cell below i reads both or neither.
    #[tactic(auto, using(crate::proofs::Sizes::from), unfolding(crate::specs::Variables::number_of))]
    fn same(self, p: usize, q: usize, i: usize) -> usize
        requires { IsSize self × Named self (Same p q i) }
        ensures { result ≡ number_of self (Same p q i) }
    {
        self.same_from() + ((p * self.inputs + q) * (self.cells + 1) + i)
    }

    // The number of a variable.
    fn number_of(self, x: Variable) -> usize
        requires { IsSize self × Named self x }
        ensures { result ≡ number_of self x }
    {
        match x {
            Variable::Reads(i, p) => self.reads(i, p),
            Variable::Many(i, p, t) => self.many(i, p, t),
            Variable::Differ(i, a, b) => self.differ(i, a, b),
            Variable::Apart(i, j, a, b) => self.apart(i, j, a, b),
            Variable::Same(p, q, i) => self.same(p, q, i),
        }
    }

    // The number of a literal.
    #[tactic(auto, using(crate::proofs::Sizes::number_below, crate::proofs::Sizes::variables_most))]
    pub fn literal_of(self, l: Literal) -> usize
        requires { IsSize self × Named self (variable_of l) }
        ensures { (result ≡ literal_of self l) × (result < 2 * variables self) }
    {
        match l {
            Literal::Said(x) => 2 * self.number_of(x),
            Literal::Denied(x) => 2 * self.number_of(x) + 1,
        }
    }
}

impl Task<'_> {
    // How many variables there are in all.
    pub fn all_variables(&self) -> usize
        ensures { (result ≡ variables self.now.size) × (result < number_limit) }
    {
        self.size.all_variables()
    }

    // The number of a literal.
    pub fn literal_of(&self, l: Literal) -> usize
        requires { Named self.now.size (variable_of l) }
        ensures { (result ≡ literal_of self.now.size l) × (result < 2 * variables self.now.size) }
    {
        self.size.literal_of(l)
    }
}
