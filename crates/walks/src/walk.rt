// The masks of one size in increasing order, by recursion on the position: a mask is made from its highest position
// down, and those without a position come before those with it. What is known to be ruled out is not tried.
ghost use Rattle.std.specs.Prelude.{◌≡◌, true, false, ◌+◌, ◌^◌, ◌<◌, ◌≤◌};
ghost use Rattle.bits.specs.Numbers.{bit};
ghost use Rattle.bits.specs.Sets.{Apart, size};
ghost use Rattle.tables.specs.Table.{most_inputs, table_bit};
ghost use Rattle.splits.specs.Columns.{few_columns};
ghost use Rattle.best.specs.Search.{try_a, try_b, over_masks};
ghost use Rattle.best.specs.Answers.{answer_of};
ghost use Rattle.best.specs.Walk.{Range, SharedRange};
ghost use Rattle.walks.specs.Known.{Known};
ghost use Rattle.known.specs.Notes.{Needs, BadPairs, Outside};

use best::Masks;
use best::pair::attempt;
use bits::sets::members;
use columns::split::Split;
use known::needed::needed;
use known::notes::{Note, Notes};
use known::pairs::Pairs;
use witness::crowd::many_somewhere;
use witness::hint::look;
use witness::pick::{highest, two};
use witness::shrink::{own_of, shrink};
use witness::six::shows;

// Looks for many points, told apart at two free positions, against a pair of masks, and keeps what they rule out;
// whether that is the pair itself. With nothing shared the test of the columns takes no longer than that.
fn learn_many(t: &[u8], n: u32, r: u32, own: u16, shared: u16, notes: &mut Notes) -> bool
    requires known { Known n r t.now notes.old }
    requires own_bound { (own < 2 ^ n) × (shared < 2 ^ n) × Apart n (bit own) (bit shared) }
    ensures { (result ≡ true → few_columns n (table_bit t.now) (bit own) (bit shared) (2 ^ r) ≡ false)
        × Known n r t.now notes.new }
{
    if shared == 0 {
        return false;
    }
    let both = (own as u32) | (shared as u32);
    let p = highest(own, r + 1);
    let Some((e, f)) = two(n, p as u32, both) else {
        return false;
    };
    if !many_somewhere(t, n, 1 << r, p, e, f) {
        return false;
    }
    let note = Note {
        own: p as u32,
        free: e | f,
    };
    notes.keep(note);
    note.meets(own as u32, both)
}

// Two own inputs and nothing shared: what six bits say of them tells of hardly another pair.
fn two_alone(own: u16, shared: u16) -> bool
    ensures { Unit {0} }
{
    shared == 0 && members(own) == 2
}

// Looks for six bits against a pair of masks, and keeps what they rule out, made small; whether that is the pair
// itself. Of more first cells than one six bits say nothing: there many points are asked.
fn learn(t: &[u8], n: u32, r: u32, own: u16, shared: u16, notes: &mut Notes) -> bool
    requires known { Known n r t.now notes.old }
    requires own_bound { (own < 2 ^ n) × (shared < 2 ^ n) × Apart n (bit own) (bit shared) }
    ensures { (result ≡ true → few_columns n (table_bit t.now) (bit own) (bit shared) (2 ^ r) ≡ false)
        × Known n r t.now notes.new }
{
    if r != 1 {
        return learn_many(t, n, r, own, shared, notes);
    }
    if two_alone(own, shared) {
        return false;
    }
    let Some(found) = look(t, Split::of(n, own, shared)) else {
        return false;
    };
    let w = shrink(t, n, found);
    let p = own_of(w);
    if !shows(t, n, w, p) {
        return false;
    }
    let note = Note { own: p, free: w.d };
    notes.keep(note);
    note.meets(own as u32, (own as u32) | (shared as u32))
}

// The pair of masks, if it is possible: what is known is asked first, then what can be learned.
fn try_pair(t: &[u8], n: u32, r: u32, own: u16, shared: u16, notes: &mut Notes) -> Option<Masks>
    requires known { Known n r t.now notes.old }
    requires own_bound { (own < 2 ^ n) × (shared < 2 ^ n) × Apart n (bit own) (bit shared) }
    ensures { (answer_of result ≡ try_b n r (table_bit t.now) (size n (bit shared)) own shared)
        × Known n r t.now notes.new }
{
    if notes.ruled(own as u32, (own as u32) | (shared as u32)) {
        return None;
    }
    if learn(t, n, r, own, shared, notes) {
        return None;
    }
    attempt(t, n, r, own, shared)
}

// Whether the mask has more positions than there is room for.
fn too_many(left: u16, room: u32) -> bool
    ensures { result ≡ true → room < size 16 (bit left) }
{
    left != 0 && members(left) > room
}

// The first possible shared mask for the own mask among those that add k positions below p to acc; each has every
// needed position.
fn walk_shared(
    t: &[u8],
    n: u32,
    r: u32,
    own: u16,
    need: u16,
    p: u32,
    acc: u16,
    k: u32,
    notes: &mut Notes,
) -> Option<Masks>
    requires known { Known n r t.now notes.old }
    requires shared_range { SharedRange n own p acc × Needs n (table_bit t.now) (2 ^ r) (bit own) need × Outside need own }
    ensures { (answer_of result ≡ over_masks p acc (try_b n r (table_bit t.now) (size n (bit acc) + k) own))
        × Known n r t.now notes.new }
{
    if k > p {
        return None;
    }
    let left = need & !acc;
    if too_many(left, k) {
        return None;
    }
    if ((left as u32) >> p) & 1 == 1 {
        return None;
    }
    if k == 0 {
        return try_pair(t, n, r, own, acc, notes);
    }
    let j = p - 1;
    let taken = acc + (1 << j);
    let fewer = k - 1;
    let without = walk_shared(t, n, r, own, need, j, acc, k, notes);
    if let Some(found) = without {
        return Some(found);
    }
    if (own >> j) & 1 == 1 {
        return None;
    }
    walk_shared(t, n, r, own, need, j, taken, fewer, notes)
}

// The first possible pair among the own masks that add k positions below p to acc, with q shared positions.
pub fn walk_own<'a>(
    t: &'a [u8],
    n: u32,
    r: u32,
    pairs: &'a Pairs,
    q: u32,
    need: u16,
    p: u32,
    acc: u16,
    k: u32,
    notes: &mut Notes,
) -> Option<Masks>
    requires known { Known n r t.now notes.old × BadPairs n (table_bit t.now) (2 ^ r) pairs.now }
    requires range { Range n p acc × Needs n (table_bit t.now) (2 ^ r) (bit acc) need × (q ≤ most_inputs) }
    ensures { (answer_of result ≡ over_masks p acc (try_a n r (table_bit t.now) (size n (bit acc) + k) q))
        × Known n r t.now notes.new }
{
    if k > p {
        return None;
    }
    let left = need & !acc;
    if too_many(left, q + k) {
        return None;
    }
    if k == 0 {
        return walk_shared(t, n, r, acc, left, n, 0, q, notes);
    }
    let j = p - 1;
    let taken = acc + (1 << j);
    let fewer = k - 1;
    let without = walk_own(t, n, r, pairs, q, need, j, acc, k, notes);
    if let Some(found) = without {
        return Some(found);
    }
    let more = needed(pairs, acc, j, need);
    walk_own(t, n, r, pairs, q, more, j, taken, fewer, notes)
}
