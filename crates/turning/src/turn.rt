// Turn one three-input table into another.
ghost use Rattle.std.specs.Prelude.{◌≡◌};
ghost use Rattle.turning.specs.Turn.{turn_answer, turn_outcome};

use crate::ways::{Way, first_way, way_at};
use refusals::verdicts::Refusal;

// The first way that turns the one table into the other.
pub fn turn(first: u8, second: u8) -> Result<Way, Refusal>
    ensures { turn_answer result ≡ turn_outcome first second }
{
    match first_way(first, second) {
        Some(i) => Ok(way_at(i)),
        None => Err(Refusal::Turn),
    }
}
