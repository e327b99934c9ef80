// Numbers in a certificate: least byte first.
ghost use Rattle.std.specs.Prelude.{◌≡◌, ◌+◌, ◌*◌, ◌<◌, ◌≤◌, length};
ghost use Rattle.bits.specs.Lists.{byte_at};
ghost use Rattle.clauses.specs.Step.{two, four};

// The byte that stands k bytes behind a place, and 0 past the end.
pub fn byte_behind(c: &[u8], at: usize, k: usize) -> u8
    ensures { result ≡ byte_at c.now (at + k) }
{
    c.get(at.saturating_add(k)).copied().unwrap_or(0)
}

// The two bytes at a place.
pub fn two_at(c: &[u8], at: usize) -> usize
    requires { at + 2 ≤ length c.now }
    ensures { (result ≡ two c.now at) × (result < 65536) }
{
    usize::from(u16::from_le_bytes([c[at], c[at + 1]]))
}

// The four bytes at a place.
pub fn four_at(c: &[u8], at: usize) -> usize
    requires { at + 4 ≤ length c.now }
    ensures { (result ≡ four c.now at) × (result < 4294967296) }
{
    u32::from_le_bytes([c[at], c[at + 1], c[at + 2], c[at + 3]]) as usize
}
