// The steps of kinds 1 to 14: each names a clause by its fields.
ghost use Rattle.std.specs.Prelude.{◌≡◌, ◌&&◌, ◌+◌, leb, ltb, length};
ghost use Rattle.tables.specs.Table.{table_bit, table_length};
ghost use Rattle.clauses.specs.Variables.{IsSize};
ghost use Rattle.clauses.specs.Clause.{is_cell, are_rows, are_inputs, in_order};
ghost use Rattle.clauses.specs.Asking.{given_in_order};

use crate::swaps::can_swap;
use crate::task::Task;
use crate::variables::Size;

// In the order of their kinds, 1 to 14. Cells, signals, inputs and counts have a byte in a certificate, rows two.
#[derive(Clone, Copy)]
pub enum Given {
    // i, p, t: who reads at least t of the signals below p, and p too, reads at least t + 1 of those below p + 1
    OneMore(usize, usize, usize),
    // i, p, t: at least as many with p as without
    AsMany(usize, usize, usize),
    // i: at least none
    None(usize),
    // i: at most K
    Most(usize),
    // i, a, b: a cell differs at two rows only if something that it reads does
    Cause(usize, usize, usize),
    // i, j, a, b: what makes a cell differ is read
    Read(usize, usize, usize, usize),
    // i, j, a, b: and differs
    Differs(usize, usize, usize, usize),
    // i, a, b, s: of three rows, the first among them, an even number of pairs differ
    Even(usize, usize, usize, usize),
    // a, b: the last cell is the table
    Table(usize, usize),
    // i: each cell but the last is read by a later one
    Used(usize),
    // p, q: two inputs are swappable
    Swap(usize, usize),
    // p, q, i: the first cell that reads just one of them reads p
    Sorted(usize, usize, usize),
    // p, q, i: while each cell reads both or neither, they stay the same: if this one reads q
    Both(usize, usize, usize),
    // p, q, i: and if it doesn't read p
    Neither(usize, usize, usize),
}

impl Size {
    // A cell that there is.
    fn is_cell(self, i: usize) -> bool
        ensures { result ≡ is_cell self i }
    {
        i < self.cells
    }

    // Two rows that there are.
    fn are_rows(self, a: usize, b: usize) -> bool
        ensures { result ≡ are_rows self a b }
    {
        a < self.rows && b < self.rows
    }

    // Two inputs, the lower first.
    fn are_inputs(self, p: usize, q: usize) -> bool
        ensures { result ≡ are_inputs self p q }
    {
        p < q && q < self.inputs
    }

    // Two inputs, the lower first, and a cell.
    fn are_sorted(self, p: usize, q: usize, i: usize) -> bool
        ensures { result ≡ (are_inputs self p q && is_cell self i) }
    {
        self.are_inputs(p, q) && self.is_cell(i)
    }

    // A cell, a signal before it, and a count up to a limit.
    fn is_count(self, i: usize, p: usize, t: usize, most: usize) -> bool
        requires { IsSize self }
        ensures { result ≡ (is_cell self i && (ltb p (self.inputs + i) && leb t most)) }
    {
        self.is_cell(i) && p < self.inputs + i && t <= most
    }

    // A cell, one before it, and two rows.
    fn are_cells(self, i: usize, j: usize, a: usize, b: usize) -> bool
        ensures { result ≡ (is_cell self i && (ltb j i && are_rows self a b)) }
    {
        self.is_cell(i) && j < i && self.are_rows(a, b)
    }

    // Whether a step is in order, the table being t.
    #[tactic(auto, unfolding(crate::specs::Clause::in_order))]
    pub fn in_order(self, t: &[u8], g: Given) -> bool
        requires { IsSize self × (length t.now ≡ table_length self.inputs) }
        ensures { result ≡ in_order self (table_bit t.now) g }
    {
        match g {
            Given::OneMore(i, p, t) => self.is_count(i, p, t, self.cell),
            Given::AsMany(i, p, t) => self.is_count(i, p, t, self.cell + 1),
            Given::None(i) | Given::Most(i) => self.is_cell(i),
            Given::Cause(i, a, b) => self.is_cell(i) && self.are_rows(a, b),
            Given::Read(i, j, a, b) | Given::Differs(i, j, a, b) => self.are_cells(i, j, a, b),
            Given::Even(i, a, b, s) => self.is_cell(i) && self.are_rows(a, b) && s <= 3,
            Given::Table(a, b) => self.are_rows(a, b),
            Given::Used(i) => i < self.cells - 1,
            Given::Swap(p, q) => {
                self.are_inputs(p, q) && can_swap(t, self.inputs as u32, p as u32, q as u32)
            }
            Given::Sorted(p, q, i) | Given::Both(p, q, i) | Given::Neither(p, q, i) =>
                self.are_sorted(p, q, i),
        }
    }
}

impl Task<'_> {
    // Whether a step is in order.
    pub fn in_order(&self, g: Given) -> bool
        ensures { result ≡ given_in_order self.now g }
    {
        self.size.in_order(self.table, g)
    }
}
