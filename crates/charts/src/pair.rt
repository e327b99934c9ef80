// The fixed answer to a split: the first cells' tables as numbers, and the last cell's byte by byte.
ghost use Rattle.std.specs.Prelude.{◌≡◌, true, ◌&&◌, ℕ, ◌+◌, ◌*◌, ◌^◌, ◌<◌, ◌≤◌, ltb, length, get_or};
ghost use Rattle.bits.specs.Numbers.{bit};
ghost use Rattle.bits.specs.Sets.{size, gather};
ghost use Rattle.tables.specs.Table.{most_inputs, table_bit, byte_of};
ghost use Rattle.tables.specs.Words.{gate_word};
ghost use Rattle.tables.specs.Cells.{cell_words};
ghost use Rattle.splits.specs.Columns.{few_columns, most_first, most_columns};
ghost use Rattle.splits.specs.Pair.{code_at, bit_h, inputs_h};
ghost use Rattle.charts.specs.Cells.{bit_d, held_d, first_table, first_cells, no_cells};
ghost use Rattle.columns.specs.Reading.{Chart, read_from, first_reads, last_reads, chart_room};

use bits::sets::{gather_in, next, parts, spread_out};
use columns::columns::{look_through, place};
use columns::split::Split;
use tables::bit_at;
use tables::cell::CellTable;
use tables::fixed::word_over;

// The tables of 1, 2 or 3 first cells; those that are not there are 0. What C is handed and what is claimed of it names
// the three (TrySeveral, pelzurivan; TrySplit, claims), so they are three fields and no array.
#[derive(Clone, Copy)]
pub struct FirstCells {
    pub first: CellTable,
    pub second: CellTable,
    pub third: CellTable,
}

impl FirstCells {
    // None is there.
    pub fn none() -> FirstCells
        ensures { result ≡ no_cells }
    {
        FirstCells {
            first: CellTable::zero(),
            second: CellTable::zero(),
            third: CellTable::zero(),
        }
    }
}

// A place for each column of each assignment of the shared inputs: 2 ^ r columns, with r first cells, and r, which is
// less than the own inputs are, makes with the shared inputs at most 7 in a cell of at most 8 inputs.
const CHART: usize = 128;

// Room for the chart of a split, nothing charted yet.
pub fn blank() -> [u16; CHART]
    ensures { (length result ≡ chart_room) × ((i : ℕ) → get_or result i 0 ≡ 0) }
{
    [0; CHART]
}

// For each shared assignment b, the numbers that stand for its columns: place b * limit + d of `seen` stands for column
// d.
pub fn chart(t: &[u8], s: Split, limit: usize, seen: &mut [u16])
    requires limit_bound { (limit ≤ most_columns) × (2 ^ s.n ≤ 8 * length t.now) }
    requires shared_in_bounds { (limit * 2 ^ size s.n (bit s.shared) ≤ length seen.old) × ((i : ℕ) → get_or seen.old i 0 ≡ 0) }
    requires limit_value { few_columns s.n (table_bit t.now) (bit s.own) (bit s.shared) limit ≡ true }
    ensures { Chart s (table_bit t.now) limit seen.new }
{
    let mut base: u32 = 0;
    for b in 0..parts(s.n, s.shared) {
        let from = b as usize * limit;
        let end = from + limit;
        look_through(t, s, base, limit, &mut seen[from..end]);
        base = next(s.n, s.shared, base);
    }
}

// The number of x's column among the different columns of its shared assignment: what the first cells give there, made
// into one number.
fn code_at<'a>(t: &'a [u8], s: Split, limit: usize, seen: &'a [u16], x: u32) -> usize
    requires x_read { (x ≡ read_from s x) × (2 ^ s.n ≤ 8 * length t.now) × (limit ≤ most_columns) }
    requires chart { Chart s (table_bit t.now) limit seen.now }
    requires limit_value { few_columns s.n (table_bit t.now) (bit s.own) (bit s.shared) limit ≡ true }
    ensures { result ≡ code_at s.n (table_bit t.now) (bit s.own) (bit s.shared) (gather s.n (first_reads s) x) }
{
    let base = x & (s.shared as u32);
    let from = gather_in(s.n, s.shared, x) as usize * limit;
    let end = from + limit;
    place(t, s, base, x - base, &seen[from..end], limit).unwrap()
}

// First cell `which` at the assignment x of own and shared inputs: that bit of the number of its column.
fn d_bit<'a>(t: &'a [u8], s: Split, limit: usize, seen: &'a [u16], which: u32, x: u32) -> bool
    requires x_read { (x ≡ read_from s x) × (2 ^ s.n ≤ 8 * length t.now) × (limit ≤ most_columns) }
    requires chart { Chart s (table_bit t.now) limit seen.now × (which < most_first) }
    requires limit_value { few_columns s.n (table_bit t.now) (bit s.own) (bit s.shared) limit ≡ true }
    ensures { result ≡ bit (code_at s.n (table_bit t.now) (bit s.own) (bit s.shared)
        (gather s.n (first_reads s) x)) which }
{
    let code = code_at(t, s, limit, seen, x);
    (code >> which) & 1 == 1
}

// Word w of the table of first cell `which`, read with the chart of the columns.
fn d_word<'a>(t: &'a [u8], s: Split, limit: usize, seen: &'a [u16], which: u32, w: u32) -> u64
    requires w_bound { (w < cell_words) × (2 ^ s.n ≤ 8 * length t.now) × (limit ≤ most_columns) }
    requires chart { Chart s (table_bit t.now) limit seen.now × (which < most_first) }
    requires limit_value { few_columns s.n (table_bit t.now) (bit s.own) (bit s.shared) limit ≡ true }
    ensures { result ≡ gate_word (size s.n (first_reads s))
        (bit_d s.n (table_bit t.now) (bit s.own) (bit s.shared) which) w }
{
    let both = s.own + s.shared;
    let many = parts(s.n, both);
    let from = 64 * w;
    if many <= from {
        return 0;
    }
    let mut r: u64 = 0;
    let mut x = spread_out(s.n, both, from);
    for i in 0..(many - from).min(64) {
        r += (d_bit(t, s, limit, seen, which, x) as u64) << i;
        x = next(s.n, both, x);
    }
    r
}

// The table of first cell `which`.
fn table_of<'a>(t: &'a [u8], s: Split, limit: usize, seen: &'a [u16], which: u32) -> CellTable
    requires n_bound { (2 ^ s.n ≤ 8 * length t.now) × (limit ≤ most_columns) }
    requires chart { Chart s (table_bit t.now) limit seen.now × (which < most_first) }
    requires limit_value { few_columns s.n (table_bit t.now) (bit s.own) (bit s.shared) limit ≡ true }
    ensures { result ≡ held_d s.n (table_bit t.now) (bit s.own) (bit s.shared) which }
{
    let mut words = [0; CellTable::WORDS];
    for w in 0..CellTable::WORDS {
        words[w] = d_word(t, s, limit, seen, which, w as u32);
    }
    CellTable { words }
}

// The same, or 0 where there are only r first cells.
fn table_or_zero<'a>(t: &'a [u8], s: Split, r: u32, seen: &'a [u16], which: u32) -> CellTable
    requires n_bound { (2 ^ s.n ≤ 8 * length t.now) × (r ≤ most_first) }
    requires chart { Chart s (table_bit t.now) (2 ^ r) seen.now }
    requires r_value { few_columns s.n (table_bit t.now) (bit s.own) (bit s.shared) (2 ^ r) ≡ true }
    ensures { result ≡ first_table s.n (table_bit t.now) (bit s.own) (bit s.shared) r which }
{
    if r <= which {
        return CellTable::zero();
    }
    table_of(t, s, 1 << r, seen, which)
}

// The tables of r first cells.
pub fn first_cells<'a>(t: &'a [u8], s: Split, r: u32, seen: &'a [u16]) -> FirstCells
    requires n_bound { (2 ^ s.n ≤ 8 * length t.now) × (r ≤ most_first) }
    requires chart { Chart s (table_bit t.now) (2 ^ r) seen.now }
    requires r_value { few_columns s.n (table_bit t.now) (bit s.own) (bit s.shared) (2 ^ r) ≡ true }
    ensures { result ≡ first_cells s.n (table_bit t.now) (bit s.own) (bit s.shared) r }
{
    FirstCells {
        first: table_or_zero(t, s, r, seen, 0),
        second: table_or_zero(t, s, r, seen, 1),
        third: table_or_zero(t, s, r, seen, 2),
    }
}

// The last cell's bit at its assignment i: shared and free inputs first, then the first cells' outputs. Past its last
// assignment, where the outputs would name a column from the limit on, stands 0: a spare bit.
pub fn h_bit<'a>(t: &'a [u8], s: Split, limit: usize, seen: &'a [u16], i: u32) -> bool
    requires { (2 ^ s.n ≤ 8 * length t.now) × Chart s (table_bit t.now) limit seen.now × (limit ≤ most_columns) }
    ensures { result ≡ (ltb i (limit * 2 ^ size s.n (last_reads s))
        && bit_h s.n (table_bit t.now) (bit s.own) (bit s.shared) i) }
{
    let beside = s.shared + s.free;
    let many = parts(s.n, beside);
    let d = (i / many) as usize;
    if limit <= d {
        return false;
    }
    let x = spread_out(s.n, beside, i % many);
    let b = gather_in(s.n, s.shared, x) as usize;
    let at = b * limit + d;
    bit_at(t, x + seen[at] as u32)
}

// Byte i of the last cell's table, spare bits zero, for 2 ^ r columns at most.
pub fn h_byte<'a>(t: &'a [u8], s: Split, limit: usize, seen: &'a [u16], i: u32) -> u8
    requires { (2 ^ s.n ≤ 8 * length t.now) × Chart s (table_bit t.now) limit seen.now × (limit ≤ most_columns)
        × (i < 2 ^ most_inputs) }
    ensures { (r : ℕ) → limit ≡ 2 ^ r
        → result ≡ byte_of (inputs_h s.n (table_bit t.now) (bit s.own) (bit s.shared) r)
        (bit_h s.n (table_bit t.now) (bit s.own) (bit s.shared)) i }
{
    let mut b: u8 = 0;
    for j in 0..8 {
        b += (h_bit(t, s, limit, seen, i * 8 + j) as u8) << j;
    }
    b
}

// Word i of the last cell's table, where nothing is shared and the free inputs make whole words: those of each column
// stand side by side, and past the last column 0.
pub fn h_word<'a>(t: &'a [u8], s: Split, limit: usize, seen: &'a [u16], i: u32) -> u64
    requires { (2 ^ s.n ≤ 8 * length t.now) × Chart s (table_bit t.now) limit seen.now × (s.shared ≡ 0)
        × (64 ≤ 2 ^ size s.n (bit s.free)) }
    ensures { (r : ℕ) → limit ≡ 2 ^ r
        → result ≡ gate_word (inputs_h s.n (table_bit t.now) (bit s.own) (bit s.shared) r)
        (bit_h s.n (table_bit t.now) (bit s.own) (bit s.shared)) i }
{
    let each = parts(s.n, s.free) / 64;
    let d = (i / each) as usize;
    if limit <= d {
        return 0;
    }
    word_over(t, s.n, s.free, seen[d] as u32, i % each)
}
