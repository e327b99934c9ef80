// A split as the code holds it.
ghost use Rattle.std.specs.Prelude.{◌≡◌, ◌^◌, ◌<◌, ◌≤◌};
ghost use Rattle.bits.specs.Numbers.{bit, number};
ghost use Rattle.bits.specs.Sets.{Apart, rest, size};
ghost use Rattle.tables.specs.Table.{most_inputs};
ghost use Rattle.columns.specs.ByWords.{high_part, low_places};

use bits::sets::{parts, subsets};

// The own and the shared mask of a table of n inputs, with what reading its columns by words needs: the mask of the
// free inputs, how many words a column lies in, and at which places of a word.
#[derive(Clone, Copy)]
pub struct Split {
    pub n: u32,
    pub own: u16,
    pub shared: u16,
    pub free: u16,
    pub words: u32,
    pub low: u64,
    // the masks lie below n, apart from each other
    pub ghost most: { n ≤ most_inputs },
    pub ghost below_a: { own < 2 ^ n },
    pub ghost below_b: { shared < 2 ^ n },
    pub ghost apart: { Apart n (bit own) (bit shared) },
    // the free mask follows from the two, and how it is read by words follows from it
    pub ghost free_is: { free ≡ number n (rest (bit own) (bit shared)) },
    pub ghost words_are: { words ≡ 2 ^ size n (bit (high_part free)) },
    pub ghost low_is: { low ≡ low_places free },
}

impl Split {
    ghost use Rattle.columns.specs.Reading.{Held};

    // so many first cells at most
    pub const MOST_FIRST: u64 = 3;

    pub fn of(n: u32, own: u16, shared: u16) -> Split
        requires { (n ≤ most_inputs) × (own < 2 ^ n) × (shared < 2 ^ n) × Apart n (bit own) (bit shared) }
        ensures { Held result × (result.n ≡ n) × (result.own ≡ own) × (result.shared ≡ shared) }
    {
        let all: u32 = (1 << n) - 1;
        let left = all - own as u32 - shared as u32;
        let free = left as u16;
        Split {
            n,
            own,
            shared,
            free,
            words: parts(n, free / 64 * 64),
            low: subsets(free),
        }
    }
}
