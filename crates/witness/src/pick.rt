// Which own and free positions to ask of many points. Nothing is promised here but that it is safe and ends.
ghost use Rattle.std.specs.Prelude.{◌≤◌};
ghost use Rattle.tables.specs.Table.{most_inputs};

use bits::sets::members;

// The highest positions of a mask, at most so many: in a walk these change last.
pub fn highest(mask: u16, many: u32) -> u16 {
    let mut m = mask;
    while m != 0 && members(m) > many {
        m &= m - 1;
    }
    m
}

// Two positions outside `both`, each as a mask, the lower first. The positions outside `own` are taken two by two from
// the top, so that different answers have no position in common, and few of them meet every small shared set.
pub fn two(n: u32, own: u32, both: u32) -> Option<(u32, u32)>
    requires { n ≤ most_inputs }
{
    let mut upper = None;
    for j in (0..n).rev() {
        let e: u32 = 1 << j;
        if own & e == 0 {
            upper = match upper {
                None => Some(e),
                Some(f) if (e | f) & both == 0 => return Some((e, f)),
                Some(_) => None,
            };
        }
    }
    None
}
