// The shorter of two sheets, for C.
ghost use Rattle.std.specs.Prelude.{◌≡◌};
ghost use Rattle.sheets.specs.Edition.{first_edition};
ghost use Rattle.comparing.specs.Shorter.{kept_outcome};
ghost use Rattle.pelzurivan.specs.Shorter.{shorter_c};

use comparing::shorter::{keep_shorter, number_kept, part_of};

// Which of the two (0 none), its length in bytes, and the number of the call beside.
#[repr(C)]
#[derive(Clone, Copy)]
pub struct ShorterC {
    pub which: u64,
    pub length: u64,
    pub number: u64,
}

// Keeps the shorter of two sheets for one table: C has the sheet already, and is told which it is.
#[unsafe(no_mangle)]
pub extern "C" fn pelzurivan_shorter<'a>(
    n: u64,
    t: &'a [u8],
    first: &'a [u8],
    second: &'a [u8],
) -> ShorterC
    ensures { result ≡ shorter_c (kept_outcome first_edition n t.now first.now second.now)
        first.now second.now }
{
    let kept = keep_shorter(n, t, first, second);
    let which = number_kept(kept);
    let length = part_of(which, first, second).len() as u64;
    match kept {
        Ok(_) => ShorterC {
            which,
            length,
            number: 0,
        },
        Err(why) => ShorterC {
            which,
            length,
            number: why.number() as u64,
        },
    }
}
