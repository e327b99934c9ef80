// What a certificate is handed in for. (Its methods stand where their words do: its numbers in variables.rt, its steps
// in given.rt, their clauses in shapes.rt. Where less than all three parts is asked for, Size has the same method, and
// a task's hands on to it.)
ghost use Rattle.std.specs.Prelude.{◌≡◌, length};
ghost use Rattle.tables.specs.Table.{table_length};
ghost use Rattle.clauses.specs.Variables.{IsSize};
ghost use Rattle.clauses.specs.Shapes.{HasRows};

use crate::variables::Size;

// A table, and a certificate that is to show that no network of the size carries it.
#[derive(Clone, Copy)]
pub struct Task<'a> {
    pub size: Size,
    pub table: &'a [u8],
    pub certificate: &'a [u8],
    // the size is within the limits
    pub ghost sized: { IsSize size },
    // the certificate has the rows that the size says
    pub ghost rows: { HasRows size certificate.now },
    // the table has a bit for each assignment of the inputs
    pub ghost whole: { length table.now ≡ table_length size.inputs },
}
