// A card's measures: each number stands here and nowhere else.
use sheets::kinds::Sheet;

pub const DESKS: u64 = Sheet::DESKS as u64;

// where a desk's open mark lies in its own bytes, then n, then the count of cells
pub const MARK: usize = Sheet::BYTES;

pub const INPUTS: usize = MARK + 1;

pub const COUNT: usize = MARK + 2;

// bytes of a desk, and of the card
pub const DESK: usize = Sheet::BYTES + Sheet::RECORD;

pub const CARD: usize = DESK * DESKS as usize;

// how many stores a load is
pub const STORES: usize = DESK + 1;
