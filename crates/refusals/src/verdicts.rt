// The table of refusals: why a call says no. specs/Refusals.antt says exactly when each is given.
ghost use Rattle.std.specs.Prelude.{◌≡◌};
ghost use Rattle.refusals.specs.Results.{refusal_of, verdict_of, columns_of};
ghost use Rattle.refusals.specs.Lines.{number_of, place_of};
ghost use Rattle.refusals.specs.Looks.{why_bad};

use records::rules::BadSheet;

// Why a call says no, with what it names besides.
#[derive(Clone, Copy, Debug, PartialEq, Eq)]
pub enum Refusal {
    // n outside 1 to 16
    Inputs,
    // K outside 2 to the largest cell
    Cell,
    // the edition is neither the first nor the second
    Edition,
    // the table, read or to be rebuilt, has a wrong length
    Table,
    // n below 3 and a spare bit set
    Spare,
    // a named split's sets don't fit n or K
    Sets,
    // the desk is above 4
    Desk,
    // the number of cells is outside 1 to 15
    Cells,
    // a lent room is too short
    Room,
    // nothing to split
    Nothing,
    // no split is possible
    NoSplit,
    // the named split isn't: the least shared assignment that breaks it, and how many different columns that has
    Broken(u32, usize),
    // the sheet has a wrong length
    Sheet,
    // a record breaks the record rules: its index
    Record(usize),
    // the assignment is 2^n or more
    Assignment,
    // the sheet doesn't give the table's bit: the least such assignment
    Differs(u32),
    // the delay or a time is no number, out of range, crossed or missing
    Time,
    // a time isn't in sixteenths, or the deadline is out of range
    Slack,
    // a record but the last is read by no later record: its index
    Unread(usize),
    // the text is no formula: the first place at which it can't be continued
    Text(usize),
    // no formula is printed for the sheet
    NotPrinted,
    // the chain with several first cells takes more records than a sheet has
    Long,
    // the desk is closed: its mark isn't 1
    Closed,
    // the desk is outside 1 to 4, or the sheet is another desk's
    OtherDesk,
    // the card has a wrong length
    Card,
    // no swap and flips turn one table into the other
    Turn,
    // the certificate doesn't show it: the byte at which its first step that isn't in order begins
    NotShown(usize),
}

impl Refusal {
    // The paper's number.
    pub fn number(self) -> u8
        ensures { result ≡ (refusal_of self).number }
    {
        match self {
            Refusal::Inputs => 1,
            Refusal::Cell => 2,
            Refusal::Edition => 2,
            Refusal::Table => 3,
            Refusal::Spare => 4,
            Refusal::Sets => 5,
            Refusal::Desk => 5,
            Refusal::Cells => 5,
            Refusal::Room => 6,
            Refusal::Nothing => 7,
            Refusal::NoSplit => 8,
            Refusal::Broken(_, _) => 8,
            Refusal::Sheet => 9,
            Refusal::Record(_) => 10,
            Refusal::Assignment => 11,
            Refusal::Differs(_) => 12,
            Refusal::Time => 13,
            Refusal::Slack => 14,
            Refusal::Unread(_) => 15,
            Refusal::Text(_) => 16,
            Refusal::NotPrinted => 16,
            Refusal::Long => 17,
            Refusal::Closed => 18,
            Refusal::OtherDesk => 19,
            Refusal::Card => 20,
            Refusal::Turn => 21,
            Refusal::NotShown(_) => 22,
        }
    }

    // What is named besides, else 0.
    pub fn place(self) -> u64
        ensures { result ≡ (refusal_of self).place }
    {
        match self {
            Refusal::Broken(b, _) => b as u64,
            Refusal::Record(i) => i as u64,
            Refusal::Differs(x) => x as u64,
            Refusal::Unread(i) => i as u64,
            Refusal::Text(at) => at as u64,
            Refusal::NotShown(at) => at as u64,
            _ => 0,
        }
    }

    // How many different columns the named split has where it breaks, else 0.
    pub fn columns(self) -> usize
        ensures { result ≡ columns_of self }
    {
        match self {
            Refusal::Broken(_, columns) => columns,
            _ => 0,
        }
    }
}

// The refusal of a sheet that can't be read.
impl From<BadSheet> for Refusal {
    ghost from_gives = { λ bad why. why ≡ why_bad bad };

    fn from(bad: BadSheet) -> Refusal {
        match bad {
            BadSheet::Length => Refusal::Sheet,
            BadSheet::Record(i) => Refusal::Record(i),
        }
    }
}

// The paper's number of a result; 0 is done.
pub fn number_of<T>(answer: &Result<T, Refusal>) -> u8
    ensures { result ≡ number_of (verdict_of answer.now) }
{
    match answer {
        Ok(_) => 0,
        Err(why) => why.number(),
    }
}

// What a result names besides, else 0.
pub fn place_of<T>(answer: &Result<T, Refusal>) -> u64
    ensures { result ≡ place_of (verdict_of answer.now) }
{
    match answer {
        Ok(_) => 0,
        Err(why) => why.place(),
    }
}
