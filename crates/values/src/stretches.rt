// Stretches of 256 assignments: four words in a row, whose bits are the values of one formula.
ghost use Rattle.std.specs.Prelude.{◌≡◌, ◌-◌, ◌^◌, ◌<◌};
ghost use Rattle.std.specs.Int.Bits.{bit_and, bit_or, bit_xor};
ghost use Rattle.tables.specs.Table.{most_inputs};
ghost use Rattle.runs.specs.Words.{input_word};
ghost use Rattle.values.specs.Stretches.{alike, four, in_each, in_both, word_in};

use runs::words::input_word;
use std::array::from_fn;
use std::ops::{BitAnd, BitOr, BitXor, Not};

#[derive(Clone, Copy, Debug, PartialEq, Eq)]
pub struct Stretch {
    pub words: [u64; 4],
}

impl Not for Stretch {
    type Output = Stretch;

    ghost not_gives = { λ v r. r ≡ in_each (λ x. 2 ^ 64 - 1 - x) v };

    fn not(self) -> Stretch {
        Stretch {
            words: from_fn(|k| !self.words[k]),
        }
    }
}

impl BitAnd for Stretch {
    type Output = Stretch;

    ghost bitand_gives = { λ v x r. r ≡ in_both bit_and v x };

    fn bitand(self, other: Stretch) -> Stretch {
        Stretch {
            words: from_fn(|k| self.words[k] & other.words[k]),
        }
    }
}

impl BitXor for Stretch {
    type Output = Stretch;

    ghost bitxor_gives = { λ v x r. r ≡ in_both bit_xor v x };

    fn bitxor(self, other: Stretch) -> Stretch {
        Stretch {
            words: from_fn(|k| self.words[k] ^ other.words[k]),
        }
    }
}

impl BitOr for Stretch {
    type Output = Stretch;

    ghost bitor_gives = { λ v x r. r ≡ in_both bit_or v x };

    fn bitor(self, other: Stretch) -> Stretch {
        Stretch {
            words: from_fn(|k| self.words[k] | other.words[k]),
        }
    }
}

// The same word four times.
pub fn same(x: u64) -> Stretch
    ensures { result ≡ alike x }
{
    Stretch { words: [x; 4] }
}

// Stretch w of input j: inputs below 8 change within a stretch, alike in all; the others number stretches.
pub fn of_input(j: u32, w: u32) -> Stretch
    requires { j < most_inputs }
    ensures { result ≡ four (input_word j) w }
{
    if j < 8 {
        return Stretch {
            words: [
                input_word(j, 0),
                input_word(j, 1),
                input_word(j, 2),
                input_word(j, 3),
            ],
        };
    }
    same(input_word(j - 2, w))
}

// Word k of a stretch, from 3 on the last.
pub fn word_in(v: Stretch, k: usize) -> u64
    ensures { result ≡ word_in v k }
{
    v.words[k.min(3)]
}
