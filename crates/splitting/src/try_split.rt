// Trying a named split.
ghost use Rattle.std.specs.Prelude.{◌≡◌, [], ◌∷◌, ◌+◌, ◌-◌, ◌^◌, ◌<◌, ◌≤◌, length};
ghost use Rattle.bits.specs.Numbers.{bit};
ghost use Rattle.bits.specs.Sets.{size};
ghost use Rattle.tables.specs.Table.{most_inputs, table_length};
ghost use Rattle.splits.specs.Columns.{most_first};
ghost use Rattle.best.specs.Best.{Candidate};
ghost use Rattle.sheets.specs.Edition.{IsEdition, largest_cell, first_edition};
ghost use Rattle.refusals.specs.Results.{verdict_of};
ghost use Rattle.refusals.specs.Lines.{verdict, reply};
ghost use Rattle.refusals.specs.Refusals.{bad_sets, not_possible};
ghost use Rattle.splitting.specs.TrySplit.{try_answer, try_form, try_done, try_not, try_outcome};

use crate::filling;
use bits::sets::members;
use charts::pair::FirstCells;
use columns::columns::break_of;
use columns::split::Split;
use refusals::form;
use refusals::verdicts::Refusal;
use sheets::kinds::Edition;

// Line 5: r outside 1 to 3; A or B names a position from n up; they overlap; A not above r; A and B together above K.
fn bad_sets(n: u32, k: u32, r: u64, own: u64, shared: u64) -> bool
    requires { n ≤ most_inputs }
    ensures { result ≡ (bad_sets n k r own shared).holds }
{
    if form::outside(1, r, Split::MOST_FIRST) {
        return true;
    }
    let all: u64 = 1 << n;
    if all <= own {
        return true;
    }
    if all <= shared {
        return true;
    }
    if own & shared != 0 {
        return true;
    }
    let many = members(own as u16);
    if many as u64 <= r {
        return true;
    }
    k < many + members(shared as u16)
}

// How many bytes H's table has: H reads all inputs but the own ones, and the first cells' outputs.
fn bytes_of_h(n: u32, r: u32, own: u16) -> usize
    requires { (n ≤ most_inputs) × (own < 2 ^ n) × (r < size n (bit own)) × (r ≤ most_first) }
    ensures { (result ≡ table_length (n + r - size n (bit own))) × (result ≤ table_length most_inputs) }
{
    tables::length_for(n + r - members(own))
}

// Lines 1 to 6.
fn try_form<'a>(
    e: Edition,
    n: u64,
    k: u64,
    r: u64,
    own: u64,
    shared: u64,
    t: &'a [u8],
    room: &'a [u8],
) -> Result<(), Refusal>
    requires { IsEdition e }
    ensures { verdict_of result ≡ verdict (try_form e n k r own shared t.now room.now) }
{
    form::gate(e, n, k, t)?;
    let inputs = n as u32;
    if bad_sets(inputs, k as u32, r, own, shared) {
        return Err(Refusal::Sets);
    }
    if room.len() < bytes_of_h(inputs, r as u32, own as u16) {
        return Err(Refusal::Room);
    }
    Ok(())
}

// A split whose sets are good: the tables of r first cells, and H into a room that is long enough, or that it isn't
// possible.
fn pair_of(t: &[u8], s: Split, r: u32, room: &mut [u8]) -> Result<FirstCells, Refusal>
    requires candidate { Candidate s.n largest_cell r s.own s.shared × (length t.now ≡ table_length s.n)
        × (r ≤ most_first) }
    requires own_in_bounds { table_length (s.n + r - size s.n (bit s.own)) ≤ length room.old }
    ensures { record { answer = try_answer result; room = room.new }
        ≡ reply (verdict (not_possible s.n r s.own s.shared t.now ∷ []))
        (try_done s.n r s.own s.shared t.now room.old)
        (try_not s.n s.own s.shared t.now room.old) }
{
    if let Some(broken) = break_of(t, s, 1 << r) {
        return Err(Refusal::Broken(broken.b, broken.columns));
    }
    Ok(filling::put_pair(t, s, r, bytes_of_h(s.n, r, s.own), room))
}

// Tries the split with the masks own and shared into r first cells of an edition.
pub fn try_in(
    e: Edition,
    n: u64,
    k: u64,
    r: u64,
    own: u64,
    shared: u64,
    t: &[u8],
    room: &mut [u8],
) -> Result<FirstCells, Refusal>
    requires { IsEdition e }
    ensures { record { answer = try_answer result; room = room.new }
        ≡ try_outcome e n k r own shared t.now room.old }
{
    try_form(e, n, k, r, own, shared, t, room)?;
    pair_of(
        t,
        Split::of(n as u32, own as u16, shared as u16),
        r as u32,
        room,
    )
}

// Tries the split with the masks own and shared: D, and H into the lent room.
pub fn try_split(
    n: u64,
    k: u64,
    own: u64,
    shared: u64,
    t: &[u8],
    room: &mut [u8],
) -> Result<FirstCells, Refusal>
    ensures { record { answer = try_answer result; room = room.new }
        ≡ try_outcome first_edition n k 1 own shared t.now room.old }
{
    try_in(Edition::first(), n, k, 1, own, shared, t, room)
}
