// Running a desk at an assignment. Past the card's length and the desk's number, only the desk's own bytes are handed
// on.
ghost use Rattle.std.specs.Prelude.{◌≡◌, false, length};
ghost use Rattle.refusals.specs.Results.{verdict_of};
ghost use Rattle.refusals.specs.Lines.{verdict};
ghost use Rattle.running.specs.RunSheet.{run_answer};
ghost use Rattle.cards.specs.Card.{desk_bytes, sheet_on};
ghost use Rattle.cards.specs.Refusals.{no_desk};
ghost use Rattle.cards.specs.RunDesk.{desk_lines, desk_outcome, run_desk_outcome};

use cards::form::filed;
use cards::sizes::{CARD, COUNT, DESK, DESKS, INPUTS, MARK};
use refusals::form::outside;
use refusals::verdicts::Refusal;
use runs::running::bit_of;
use sheets::kinds::{Edition, Sheet};

// The sheet that a desk with the bytes o holds, where it lies.
fn sheet_on(o: &[u8]) -> &[u8]
    requires { length o.now ≡ desk_bytes }
    ensures { result.now ≡ sheet_on o.now }
{
    let m = o[COUNT] as usize;
    // So many would be all of the desk's bytes; line 9 refuses them.
    if Sheet::RECORDS < m {
        return o;
    }
    let end = Sheet::RECORD * m;
    &o[..end]
}

// Lines 18, 1, 9, 10, 15 and 11 of a desk with the bytes o.
fn own_form(o: &[u8], d: u8, x: u64) -> Result<(), Refusal>
    requires { (length o.now ≡ desk_bytes) × (no_desk d ≡ false) }
    ensures { verdict_of result ≡ verdict (desk_lines o.now d x) }
{
    if o[MARK] != 1 {
        return Err(Refusal::Closed);
    }
    let n = o[INPUTS] as u64;
    filed(d, n, sheet_on(o))?;
    if 1 << n <= x {
        return Err(Refusal::Assignment);
    }
    Ok(())
}

// What desk d with the bytes o answers at the assignment x.
fn run_bytes(o: &[u8], d: u8, x: u64) -> Result<bool, Refusal>
    requires { (length o.now ≡ desk_bytes) × (no_desk d ≡ false) }
    ensures { run_answer result ≡ desk_outcome o.now d x }
{
    own_form(o, d, x)?;
    let s = sheet_on(o);
    let m = s.len() / Sheet::RECORD;
    Ok(bit_of(Edition::first(), o[INPUTS] as u32, s, m, x as u32))
}

// Runs desk d of a card at the assignment x: the bit.
pub fn run_desk(card: &[u8], d: u64, x: u64) -> Result<bool, Refusal>
    ensures { run_answer result ≡ run_desk_outcome card.now d x }
{
    if card.len() != CARD {
        return Err(Refusal::Card);
    }
    if outside(1, d, DESKS) {
        return Err(Refusal::OtherDesk);
    }
    let base = DESK * (d as usize - 1);
    let end = base + DESK;
    run_bytes(&card[base..end], d as u8, x)
}
