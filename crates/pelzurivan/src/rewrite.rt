// Writing a first-edition sheet in the second edition, for C.
ghost use Rattle.std.specs.Prelude.{◌≡◌};
ghost use Rattle.sheets.specs.Edition.{first_edition, second_edition};
ghost use Rattle.rewriting.specs.Rewrite.{rewrite_own, rewrite_answer};
ghost use Rattle.pelzurivan.specs.Rewrite.{rewritten_of, rewritten_c};

use refusals::verdicts::Refusal;
use rewriting::rewrite::rewrite;

// The number, the index of a bad record (10) or of an unread one (15), how many records.
#[repr(C)]
#[derive(Clone, Copy)]
pub struct RewrittenC {
    pub number: u64,
    pub index: u64,
    pub count: u64,
}

impl From<Result<usize, Refusal>> for RewrittenC {
    ghost from_gives = { λ answer c. c ≡ rewritten_of (rewrite_answer answer) };

    fn from(answer: Result<usize, Refusal>) -> RewrittenC {
        match answer {
            Ok(count) => RewrittenC {
                number: 0,
                index: 0,
                count: count as u64,
            },
            Err(why) => RewrittenC {
                number: why.number() as u64,
                index: why.place(),
                count: 0,
            },
        }
    }
}

// Writes a first-edition sheet in the second edition into lent bytes: how many records.
#[unsafe(no_mangle)]
pub extern "C" fn pelzurivan_rewrite(n: u64, s: &[u8], room: &mut [u8]) -> RewrittenC
    ensures { (result ≡ rewritten_c (rewrite_own first_edition second_edition n s.now room.old))
        × (room.new ≡ (rewrite_own first_edition second_edition n s.now room.old).room) }
{
    RewrittenC::from(rewrite(n, s, room))
}
