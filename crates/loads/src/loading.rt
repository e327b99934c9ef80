// Loading a sheet onto a desk: the lines, and any part of the load's stores.
ghost use Rattle.std.specs.Prelude.{◌≡◌, ◌-◌, ◌≤◌, take, drop};
ghost use Rattle.refusals.specs.Results.{verdict_of};
ghost use Rattle.refusals.specs.Lines.{verdict};
ghost use Rattle.cards.specs.Stores.{store_count, load_stores};
ghost use Rattle.cards.specs.Refusals.{another_desk};
ghost use Rattle.cards.specs.LoadDesk.{load_lines, part_outcome};

use cards::form::filed;
use cards::sizes::{CARD, DESKS};
use cards::stores::make_stores;
use refusals::form::outside;
use refusals::verdicts::Refusal;
use sheets::kinds::{Edition, Sheet};

// Whether a sheet of a record or more is for another desk.
fn another_desk(d: u64, s: &[u8]) -> bool
    ensures { result ≡ another_desk d s.now }
{
    if s.len() < Sheet::RECORD {
        return false;
    }
    s[Edition::MOST + 1] as u64 != d
}

// Lines 20, 19, 1, 9, 10 and 15.
fn load_form<'a>(card: &'a [u8], d: u64, n: u64, s: &'a [u8]) -> Result<(), Refusal>
    ensures { verdict_of result ≡ verdict (load_lines card.now d n s.now) }
{
    if card.len() != CARD {
        return Err(Refusal::Card);
    }
    if outside(1, d, DESKS) {
        return Err(Refusal::OtherDesk);
    }
    if another_desk(d, s) {
        return Err(Refusal::OtherDesk);
    }
    filed(d as u8, n, s)
}

// Loads a sheet of n inputs onto desk d, but makes only the stores from `first` up to `end`.
pub fn load_part(
    card: &mut [u8],
    d: u64,
    n: u64,
    s: &[u8],
    first: usize,
    end: usize,
) -> Result<(), Refusal>
    requires { (first ≤ end) × (end ≤ store_count) }
    ensures { record { verdict = verdict_of result; card = card.new }
        ≡ part_outcome (take (end - first) (drop first (load_stores d n s.now))) card.old d n
        s.now }
{
    load_form(card, d, n, s)?;
    make_stores(card, d as usize, n as u8, s, first, end);
    Ok(())
}
