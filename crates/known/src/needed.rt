// The inputs that cannot be free, gathered as an own mask grows.
ghost use Rattle.std.specs.Prelude.{◌<◌};
ghost use Rattle.known.specs.Notes.{Adds};

use crate::pairs::Pairs;

// The mask, with those that cannot be free where j is own beside acc.
pub fn needed(pairs: &Pairs, acc: u16, j: u32, need: u16) -> u16
    requires { j < 16 }
    ensures { Adds pairs.now acc j need result }
{
    let mut more = need;
    let mut x = acc;
    while x != 0 {
        let i = x.trailing_zeros() % 16;
        if (acc >> i) & 1 == 1 {
            more |= pairs[i as usize][j as usize];
        }
        x &= x - 1;
    }
    more
}
