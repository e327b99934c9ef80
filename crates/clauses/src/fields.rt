// The fields of a step of kinds 1 to 14.
ghost use Rattle.std.specs.Prelude.{◌≡◌, ◌+◌, ◌*◌, ◌<◌, get_or};
ghost use Rattle.bits.specs.Lists.{byte_at};
ghost use Rattle.clauses.specs.declared.given.Given.TheVariants.{None};
ghost use Rattle.clauses.specs.Step.{kinds_of, given_at, length_of};
ghost use Rattle.clauses.specs.Lengths.{some_length};

use crate::given::Given;
use crate::numbers::byte_behind;

// Bytes and rows, by how far behind its kind a step has them.
#[derive(Clone, Copy)]
pub struct Fields {
    pub b1: usize,
    pub b2: usize,
    pub b3: usize,
    pub b6: usize,
    pub r1: usize,
    pub r2: usize,
    pub r3: usize,
    pub r4: usize,
    pub r5: usize,
}

// The row that is named k bytes behind a place.
fn row_behind(c: &[u8], at: usize, k: usize) -> usize
    requires { k < 7 }
    ensures { result ≡ byte_at c.now (at + k) + 256 * byte_at c.now (at + (k + 1)) }
{
    usize::from(u16::from_le_bytes([byte_behind(c, at, k), byte_behind(c, at, k + 1)]))
}

// The step of a kind that has these fields; of another kind there is nothing to say. (Whoever asks has looked at the
// kind; an option would only be taken apart again. And `given_at` promises `None 0` there.)
#[tactic(auto, unfolding(crate::specs::Step::kinds_of))]
fn given_of(kind: u8, x: Fields) -> Given
    ensures { result ≡ get_or (kinds_of x) kind (None 0) }
{
    match kind {
        1 => Given::OneMore(x.b1, x.b2, x.b3),
        2 => Given::AsMany(x.b1, x.b2, x.b3),
        3 => Given::None(x.b1),
        4 => Given::Most(x.b1),
        5 => Given::Cause(x.b1, x.r2, x.r4),
        6 => Given::Read(x.b1, x.b2, x.r3, x.r5),
        7 => Given::Differs(x.b1, x.b2, x.r3, x.r5),
        8 => Given::Even(x.b1, x.r2, x.r4, x.b6),
        9 => Given::Table(x.r1, x.r3),
        10 => Given::Used(x.b1),
        11 => Given::Swap(x.b1, x.b2),
        12 => Given::Sorted(x.b1, x.b2, x.b3),
        13 => Given::Both(x.b1, x.b2, x.b3),
        14 => Given::Neither(x.b1, x.b2, x.b3),
        _ => Given::None(0),
    }
}

// The step at a place, if its kind is from 1 to 14.
pub fn given_at(c: &[u8], at: usize) -> Given
    ensures { result ≡ given_at c.now at }
{
    let byte = |k| usize::from(byte_behind(c, at, k));
    let x = Fields {
        b1: byte(1),
        b2: byte(2),
        b3: byte(3),
        b6: byte(6),
        r1: row_behind(c, at, 1),
        r2: row_behind(c, at, 2),
        r3: row_behind(c, at, 3),
        r4: row_behind(c, at, 4),
        r5: row_behind(c, at, 5),
    };
    given_of(byte_behind(c, at, 0), x)
}

// How long a step of a kind from 1 to 14 is; of kind 0 a step says itself how long it is.
#[tactic(auto, unfolding(crate::specs::Step::length_of))]
pub fn length_of(kind: u8) -> Option<usize>
    ensures { result ≡ some_length (length_of 0 kind) }
{
    match kind {
        1 | 2 | 12 | 13 | 14 => Some(4),
        3 | 4 | 10 => Some(2),
        5 => Some(6),
        6 | 7 | 8 => Some(7),
        9 => Some(5),
        11 => Some(3),
        _ => None,
    }
}
