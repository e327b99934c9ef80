// Whether no two inputs can be own: then there is no split, and no walk is needed.
ghost use Rattle.std.specs.Prelude.{◌≡◌, true, ◌<◌};
ghost use Rattle.known.specs.Notes.{Dead, AllDead};

use bits::sets::members;
use known::pairs::Pairs;

// Whether more inputs than k - 2 beside i and j are in the mask.
fn dead(mask: u16, i: u32, j: u32, k: u32) -> bool
    requires { (i < 16) × (j < 16) }
    ensures { result ≡ true → Dead mask i j k }
{
    let other = mask & !(1 << i) & !(1 << j);
    k < 2 + members(other)
}

// So it is of each two of the n inputs that the table has a place for.
pub fn all_dead(pairs: &Pairs, n: u32, k: u32) -> bool
    ensures { result ≡ true → AllDead pairs.now n k }
{
    for i in 0..n.min(16) {
        for j in 0..i {
            if !dead(pairs[i as usize][j as usize], i, j, k) {
                return false;
            }
        }
    }
    true
}
