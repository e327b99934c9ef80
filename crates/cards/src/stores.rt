// The stores of a load: what the i-th of them is, and the loop that makes them in their order.
ghost use Rattle.std.specs.Prelude.{◌≡◌, ◌-◌, ◌<◌, ◌≤◌, length, take, drop};
ghost use Rattle.cards.specs.Card.{desks, place_bytes, card_bytes};
ghost use Rattle.cards.specs.Stores.{place_byte, status_byte, store_count, store_at, load_stores, stored};

use crate::sizes::{DESK, INPUTS, MARK};
use sheets::kinds::Sheet;

// One byte goes to one place of a card.
#[derive(Clone, Copy)]
pub struct Store {
    pub place: usize,
    pub byte: u8,
}

// Byte j of the record places: zero past the sheet's end.
fn place_byte(s: &[u8], j: usize) -> u8
    ensures { result ≡ place_byte s.now j }
{
    s.get(j).copied().unwrap_or(0)
}

// Byte j of the status record past its mark.
fn status_byte(n: u8, s: &[u8], j: usize) -> u8
    requires { length s.now ≤ place_bytes }
    ensures { result ≡ status_byte n s.now j }
{
    match j {
        0 => n,
        1 => (s.len() / Sheet::RECORD) as u8,
        _ => 0,
    }
}

// Store i of a load of the sheet s, of n inputs, onto desk d.
fn store_at(d: usize, n: u8, s: &[u8], i: usize) -> Store
    requires { (1 ≤ d) × (d ≤ desks) × (length s.now ≤ place_bytes) × (i < store_count) }
    ensures { result ≡ store_at d n s.now i }
{
    let base = DESK * (d - 1);
    if i == 0 {
        return Store {
            place: base + MARK,
            byte: 0,
        };
    }
    if i <= Sheet::BYTES {
        return Store {
            place: base + (i - 1),
            byte: place_byte(s, i - 1),
        };
    }
    if i < DESK {
        return Store {
            place: base + i,
            byte: status_byte(n, s, i - INPUTS),
        };
    }
    Store {
        place: base + MARK,
        byte: 1,
    }
}

// Makes the stores of a load from `first` up to `end`.
pub fn make_stores(card: &mut [u8], d: usize, n: u8, s: &[u8], first: usize, end: usize)
    requires { (length card.old ≡ card_bytes) × (1 ≤ d) × (d ≤ desks) × (length s.now ≤ place_bytes)
        × (first ≤ end) × (end ≤ store_count) }
    ensures { card.new
        ≡ stored (take (end - first) (drop first (load_stores d n s.now))) card.old }
{
    for i in first..end {
        let Store { place, byte } = store_at(d, n, s, i);
        card[place] = byte;
    }
}
