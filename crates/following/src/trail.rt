// Variables that a step sets, and that are forgotten again.
ghost use Rattle.std.specs.Prelude.{◌≡◌, false, ℕ, ◌+◌, ◌*◌, ◌/◌, ◌<◌, ◌≤◌, length};
ghost use Rattle.following.specs.Values.{made};
ghost use Rattle.following.specs.Standing.{Trailed, Kept, Clean, Wrote, InFront};

use clauses::numbers::four_at;

// How far a step has come: whether a conflict is reached, and how many variables are set. (Both mean something always:
// what is set is forgotten again after a conflict too.)
#[derive(Clone, Copy)]
pub struct Trail {
    pub conflict: bool,
    pub set: usize,
}

// A number of four bytes, least byte first.
fn put_four(area: &mut [u8], at: usize, x: usize)
    requires { (at + 4 ≤ length area.old) × (x < 4294967296) }
    ensures { Wrote area.old at x area.new }
{
    area[at..at + 4].copy_from_slice(&(x as u32).to_le_bytes());
}

// A literal is made true, and its variable noted behind those that are set.
pub fn make(work: &mut [u8], from: usize, set: usize, l: usize) -> Trail
    requires { (l / 2 < from) × (from + 4 * set + 4 ≤ length work.old) × (l < 4294967296) }
    ensures far { result ≡ record { conflict = false; set = set + 1 } }
    ensures trail { (all : ℕ) (σ : ℕ → ℕ) → all ≤ from → l / 2 < all → Trailed all from σ set work.old
        → Trailed all from (made σ l) (set + 1) work.new × Kept all from work.old work.new }
{
    let v = l / 2;
    put_four(work, from + 4 * set, v);
    work[v] = (1 + l % 2) as u8;
    Trail {
        conflict: false,
        set: set + 1,
    }
}

// The variables that are set, from a place on, are not set any more.
pub fn forget(work: &mut [u8], from: usize, set: usize)
    requires { (from + 4 * set ≤ length work.old) × InFront from set work.old }
    ensures { (all : ℕ) (σ : ℕ → ℕ) → all ≤ from → Trailed all from σ set work.old
        → Clean all work.new × Kept all from work.old work.new }
{
    for e in 0..set {
        let v = four_at(work, from + 4 * e);
        work[v] = 0;
    }
}
