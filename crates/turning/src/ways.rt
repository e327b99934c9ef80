// The 96 ways to turn one three-input table into another: inputs swapped, inputs flipped, the output flipped.
ghost use Rattle.std.specs.Prelude.{◌≡◌, ◌<◌};
ghost use Rattle.bits.specs.Numbers.{bit};
ghost use Rattle.bits.specs.Places.{found_below};
ghost use Rattle.turning.specs.Ways.{moved, IsWay, way_count};
ghost use Rattle.turning.specs.Listing.{way_at, turns, first_way};

// The second table at x is the first at y, flipped if so said. Bit j of y is bit pj of x, flipped if bit j of the mask
// is set.
// The places are three fields, as in the struct that C gets (pelzurivan, src/turn.rt and specs/Turn.antt).
#[derive(Clone, Copy, Debug, Default, PartialEq, Eq)]
pub struct Way {
    pub flip: bool,
    pub mask: u8,
    pub p0: u8,
    pub p1: u8,
    pub p2: u8,
}

// How many ways there are: two output flips, eight masks and six orders of the inputs.
const WAYS: u8 = 96;

// The six orders of the inputs, from the least on.
const ORDERS: [[u8; 3]; 6] = [
    [0, 1, 2],
    [0, 2, 1],
    [1, 0, 2],
    [1, 2, 0],
    [2, 0, 1],
    [2, 1, 0],
];

// Way i: by the output flip, then the mask, then the order of the inputs.
pub fn way_at(i: u8) -> Way
    requires { i < way_count }
    ensures { result ≡ way_at i }
{
    let [p0, p1, p2] = ORDERS[(i % 6) as usize];
    Way {
        flip: i / 48 == 1,
        mask: i / 6 % 8,
        p0,
        p1,
        p2,
    }
}

fn bit_of(x: u8, j: u8) -> bool
    requires { j < 8 }
    ensures { result ≡ bit x j }
{
    (x >> j) & 1 == 1
}

// The assignment y of x.
fn moved_to(w: Way, x: u8) -> u8
    requires { IsWay w }
    ensures { result ≡ moved w x }
{
    let low = bit_of(x, w.p0) != bit_of(w.mask, 0);
    let middle = bit_of(x, w.p1) != bit_of(w.mask, 1);
    let high = bit_of(x, w.p2) != bit_of(w.mask, 2);
    low as u8 + middle as u8 * 2 + high as u8 * 4
}

// Whether the way turns table f into table g.
fn does_turn(w: Way, f: u8, g: u8) -> bool
    requires { IsWay w }
    ensures { result ≡ turns w f g }
{
    for x in 0..8 {
        let turned = bit_of(f, moved_to(w, x)) != w.flip;
        if bit_of(g, x) != turned {
            return false;
        }
    }
    true
}

// The place of the first way that does, if one does.
pub fn first_way(f: u8, g: u8) -> Option<u8>
    ensures { result ≡ found_below way_count (first_way f g) }
{
    for i in 0..WAYS {
        if does_turn(way_at(i), f, g) {
            return Some(i);
        }
    }
    None
}
