// The best split over the inputs that count.
ghost use Rattle.std.specs.Prelude.{◌≡◌, false, ◌≤◌, length, replicate};
ghost use Rattle.bits.specs.Numbers.{bit};
ghost use Rattle.tables.specs.Table.{most_inputs, table_length, table_bit};
ghost use Rattle.tables.specs.Counting.{CountingIn};
ghost use Rattle.best.specs.Answers.{answer_of};
ghost use Rattle.best.specs.Counting.{spread_answer, best_counting};
ghost use Rattle.best.specs.Walk.{most_first};
ghost use Rattle.quick.specs.Counted.{is_few, split_in, FoundCounting};

use crate::search::find_with;
use best::Masks;
use tables::aside::{set_aside, spread_mask};
use tables::clear;
use tables::counting::{CountingInputs, counting_inputs};

// What a search over the inputs that count finds: that at most k of them do; an own and a shared mask in the caller's
// positions; or nothing.
#[derive(Clone, Copy, Debug, PartialEq, Eq)]
pub enum Counted {
    Few,
    Split(u16, u16),
    Nothing,
}

// Masks over the members of a mask, spread back to the members.
fn spread_back(n: u32, mask: u16, found: Option<Masks>) -> Counted
    requires { n ≤ most_inputs }
    ensures { (is_few result ≡ false) × (split_in result ≡ spread_answer n (bit mask) (answer_of found)) }
{
    match found {
        Some(masks) => Counted::Split(
            spread_mask(n, mask, masks.own),
            spread_mask(n, mask, masks.shared),
        ),
        None => Counted::Nothing,
    }
}

// The best split with r first cells of k inputs over the inputs that count, in a work area, which is then cleared.
pub fn search_counting(
    t: &[u8],
    n: u32,
    counting: CountingInputs,
    r: u32,
    k: u32,
    work: &mut [u8],
) -> Counted
    requires { (length t.now ≡ table_length n) × (n ≤ most_inputs) × (r ≤ most_first) × (k ≤ most_inputs)
        × (length t.now ≤ length work.old) × CountingIn n (table_bit t.now) counting }
    ensures { (is_few result ≡ false) × (split_in result ≡ best_counting n r (table_bit t.now) k)
        × (work.new ≡ replicate (length work.old) 0) }
{
    set_aside(t, n, counting.mask, work);
    let found = find_with(work, counting.many, r, k);
    clear(work);
    spread_back(n, counting.mask, found)
}

// The same; where at most k inputs count nothing is looked for, and the work area stays.
pub fn find_counting(t: &[u8], n: u32, r: u32, k: u32, work: &mut [u8]) -> Counted
    requires { (length t.now ≡ table_length n) × (n ≤ most_inputs) × (r ≤ most_first) × (k ≤ most_inputs)
        × (length t.now ≤ length work.old) }
    ensures { FoundCounting n r k t.now work.old result work.new }
{
    let counting = counting_inputs(t, n);
    if counting.many <= k {
        return Counted::Few;
    }
    search_counting(t, n, counting, r, k, work)
}
