// The desk that a sheet is for.
ghost use Rattle.std.specs.Prelude.{◌≡◌};
ghost use Rattle.sheets.specs.Edition.{IsEdition};
ghost use Rattle.sheets.specs.Desk.{desk_of};

use sheets::kinds::{Edition, Sheet};

// The desk that the first record says; 0 where there is no such byte, or it says none.
pub fn desk_of(e: Edition, s: &[u8]) -> u8
    requires { IsEdition e }
    ensures { result ≡ desk_of e s.now }
{
    let at = e.most + 1;
    if s.len() <= at {
        return 0;
    }
    let d = s[at];
    if d <= Sheet::DESKS {
        return d;
    }
    0
}
