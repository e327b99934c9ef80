// Whether no r + 1 inputs can be own, by many points: then there is no split, and no walk is needed.
ghost use Rattle.std.specs.Prelude.{◌≡◌, true, ◌*◌, ◌^◌, ◌<◌, ◌≤◌, length};
ghost use Rattle.std.specs.Int.Bits.{bit_or};
ghost use Rattle.tables.specs.Table.{most_inputs, table_bit};
ghost use Rattle.best.specs.Walk.{most_first};
ghost use Rattle.quick.specs.Owning.{NoneOwns, Bad};

use bits::sets::members;
use witness::crowd::many_somewhere;

// Whether two inputs, each a mask, are not used yet and cannot both be free where those of `own` are own.
fn bad_two(t: &[u8], n: u32, r: u32, own: u16, used: u32, e: u32, f: u32) -> bool
    requires { (n ≤ most_inputs) × (r ≤ most_first) × (2 ^ n ≤ 8 * length t.now) }
    ensures { result ≡ true → Bad n r (table_bit t.now) own used (bit_or e f) }
{
    used & (e | f) == 0 && many_somewhere(t, n, 1 << r, own, e, f)
}

// Whether no split has these inputs among its own: of each two others that cannot both be free one is own or shared,
// and with so many twos apart that is more than k. Twos are taken from the lowest inputs on, whose bits lie in one
// word; of a two that isn't shown the lower input is passed over.
fn dead_own(t: &[u8], n: u32, r: u32, k: u32, own: u16) -> bool
    requires { (n ≤ most_inputs) × (r ≤ most_first) × (2 ^ n ≤ 8 * length t.now) × (k ≤ most_inputs) × (own < 2 ^ n) }
    ensures { result ≡ true → NoneOwns n k r (table_bit t.now) own 0 0 }
{
    let all: u32 = 1 << n;
    let mut used = own as u32;
    let mut count = members(own);
    let mut free = (all - 1) & !used;
    while count <= k {
        if free == 0 {
            return false;
        }
        let rest = free & (free - 1);
        if rest == 0 {
            return false;
        }
        let later = rest & (rest - 1);
        let e = free ^ rest;
        let f = rest ^ later;
        if bad_two(t, n, r, own, used, e, f) {
            used |= e | f;
            count += 1;
            free = later;
        } else {
            free = rest;
        }
    }
    true
}

// Whether no split has the mask acc and `left` positions below p or more among its own inputs. It ends at the first
// own mask of which that isn't shown.
pub fn none_owns(t: &[u8], n: u32, r: u32, k: u32, p: u32, acc: u16, left: u32) -> bool
    requires { (n ≤ most_inputs) × (r ≤ most_first) × (2 ^ n ≤ 8 * length t.now) × (k ≤ most_inputs) × (acc < 2 ^ n)
        × (p ≤ n) }
    ensures { result ≡ true → NoneOwns n k r (table_bit t.now) acc p left }
{
    if left > p {
        return true;
    }
    if left == 0 {
        return dead_own(t, n, r, k, acc);
    }
    let j = p - 1;
    let taken = acc | (1 << j);
    let fewer = left - 1;
    none_owns(t, n, r, k, j, acc, left) && none_owns(t, n, r, k, j, taken, fewer)
}
