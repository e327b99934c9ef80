// For each two inputs those that cannot be free where the two are own.
ghost use Rattle.std.specs.Prelude.{Bool, ℕ, ◌<◌};
ghost use Rattle.tables.specs.Table.{table_bit};
ghost use Rattle.best.specs.Moves.{both};
ghost use Rattle.known.specs.Notes.{Needs, BadPairs};
ghost use Rattle.witness.specs.Points.{Wide, Off};

use bits::sets::members;
use witness::triple::{bad, off};

// For each two inputs the mask of those that cannot be free where the two are own. The larger input is the row; what is
// on no row's left stays empty.
pub type Pairs = [[u16; 16]; 16];

// Nothing known yet.
pub fn unknown() -> Pairs
    ensures { (n m : ℕ) (F : ℕ → Bool) → BadPairs n F m result }
{
    [[0; 16]; 16]
}

// How far a triple is looked for where so many inputs may be needed. Where none may, two own inputs are ended by one
// triple, which most show early, and the test of their columns takes no longer than one look to the end. The largest
// table has 1,024 words, so that is as far as a look can go.
fn reach_for(most: u32) -> u32
    ensures { Unit {0} }
{
    if most == 0 { 4 } else { 1024 }
}

// The mask, and c besides where it cannot be free.
fn with_bad(t: &[u8], n: u32, places: u64, i: u32, j: u32, c: u32, reach: u32, mask: u16) -> u16
    requires wide { Wide n t.now × (i < n) × (j < n) × (c < n) × Off i places × Off j places }
    requires needs { Needs n (table_bit t.now) 2 (both i j) mask }
    ensures { Needs n (table_bit t.now) 2 (both i j) result }
{
    if c != i && c != j && bad(t, n, places, i, j, c, reach) {
        mask | (1 << c)
    } else {
        mask
    }
}

// The inputs that cannot be free where i and j are own; no more of them than one above `most`.
fn bad_inputs(t: &[u8], n: u32, most: u32, i: u32, j: u32) -> u16
    requires { Wide n t.now × (i < n) × (j < n) }
    ensures { Needs n (table_bit t.now) 2 (both i j) result }
{
    let places = off(i) & off(j);
    let reach = reach_for(most);
    let mut mask: u16 = 0;
    for c in (0..n).rev() {
        mask = with_bad(t, n, places, i, j, c, reach, mask);
        if members(mask) > most {
            return mask;
        }
    }
    mask
}

// Fills the table of pairs, each two inputs once: the larger first.
pub fn fill(t: &[u8], n: u32, most: u32, pairs: &mut Pairs)
    requires { Wide n t.now × BadPairs n (table_bit t.now) 2 pairs.old }
    ensures { BadPairs n (table_bit t.now) 2 pairs.new }
{
    for i in 0..n {
        for j in 0..i {
            pairs[i as usize][j as usize] = bad_inputs(t, n, most, i, j);
        }
    }
}
