// A sheet's table 64 assignments at a time. The word of a signal has, as bit i, its value at assignment 64 w + i.
ghost use Rattle.std.specs.Prelude.{◌≡◌, cond, ◌&&◌, ℕ, ◌+◌, ◌-◌, ◌*◌, ◌^◌, ◌<◌, ◌≤◌, ltb, length};
ghost use Rattle.bits.specs.Numbers.{bit, val, number};
ghost use Rattle.tables.specs.Table.{most_inputs, table_bit};
ghost use Rattle.sheets.specs.Network.{output};
ghost use Rattle.sheets.specs.Edition.{IsEdition, most_records};
ghost use Rattle.sheets.specs.Record.{byte_at, cell_bit, cell_of};
ghost use Rattle.runs.specs.Running.{input_at, Runnable};
ghost use Rattle.sheets.specs.Sheet.{AllReadable};
ghost use Rattle.runs.specs.Words.{sheet_word, input_word, lane};

use bits::patterns::{choose, of_input};
use records::rules::record_of;
use sheets::kinds::Edition;

// Room for a word of each signal: 16 inputs and 15 records have numbers below 32.
const SIGNALS: usize = 32;
// Room for the pairs of the bits of the largest cell's table: 8 inputs make 256 bits.
const PAIRS: usize = 128;

// The word of input j: a pattern below 6; from there on all assignments have the same value.
pub fn input_word(j: u32, w: u32) -> u64
    requires { j < most_inputs }
    ensures { result ≡ input_word j w }
{
    if j < 6 {
        return of_input(j);
    }
    if (w >> (j - 6)) & 1 == 1 { !0 } else { 0 }
}

// The words of the signals before the first record: the inputs', and 0 for the records to come.
fn inputs(n: u32, w: u32) -> [u64; SIGNALS]
    requires { n ≤ most_inputs }
    ensures { (length result ≡ 32) × ((i s : ℕ) → i < 64 → 64 * w + i < 2 ^ n → lane result i s ≡ bit (64 * w + i) s) }
{
    let mut r = [0u64; SIGNALS];
    for j in 0..n {
        r[j as usize] = input_word(j, w);
    }
    r
}

// The word of input j of a record's cell; an input that the cell hasn't counts as 0.
fn cell_input<'a>(e: Edition, b: &'a [u8], words: &'a [u64], j: usize) -> u64
    requires { Runnable e b.now × (32 ≤ length words.now) }
    ensures { (i : ℕ) → bit result i ≡ input_at (byte_at b.now) (lane words.now i) j }
{
    if b[0] as usize <= j {
        return 0;
    }
    words[b[j + 1] as usize]
}

// For each pair h of a table's bits, 2 h and 2 h + 1, the word that the word of input 0 chooses from it.
fn pairs(t: &[u8], first: u64, many: usize, v: &mut [u64])
    requires { (many ≤ 4 * length t.now) × (many ≤ length v.old) }
    ensures { (h i : ℕ) → h < many → i < 64 → lane v.new i h ≡ table_bit t.now
        (2 * h + val (bit first i)) }
{
    let four = [0, !first, first, !0];
    for h in 0..many {
        let pair = (t[h / 4] >> (2 * (h % 4))) % 4;
        v[h] = four[pair as usize];
    }
}

// Halves a table of words by an input: place h takes the word at h or the one at half + h, as the input's word chooses.
fn halve(s: u64, half: usize, v: &mut [u64])
    requires { half + half ≤ length v.old }
    ensures { (h i : ℕ) → h < half → i < 64 → lane v.new i h ≡ cond (bit s i)
        (lane v.old i (half + h)) (lane v.old i h) }
{
    for h in 0..half {
        v[h] = choose(s, v[h], v[half + h]);
    }
}

// The pairs of a cell's table, halved by input 0; how many inputs are left to halve by.
fn first_half<'a>(e: Edition, b: &'a [u8], words: &'a [u64], v: &mut [u64]) -> usize
    requires { Runnable e b.now × (32 ≤ length words.now) × (128 ≤ length v.old) }
    ensures value { result ≡ byte_at b.now 0 - 1 }
    ensures by_index { (h i : ℕ) → h < 2 ^ result → i < 64
        → lane v.new i h ≡ cell_bit e (byte_at b.now)
        (2 * h + val (input_at (byte_at b.now) (lane words.now i) 0)) }
{
    let others = (b[0] as usize).saturating_sub(1);
    pairs(&b[e.start..], cell_input(e, b, words, 0), 1 << others, v);
    others
}

// The word of a record's cell: its table is halved by input 0 pair by pair, then from the highest input down.
fn cell_word<'a>(e: Edition, b: &'a [u8], words: &'a [u64], v: &mut [u64]) -> u64
    requires { Runnable e b.now × (32 ≤ length words.now) × (128 ≤ length v.old) }
    ensures { (i : ℕ) → i < 64 → bit result i ≡ output (cell_of e (byte_at b.now)) (lane words.now i) }
{
    let others = first_half(e, b, words, v);
    for j in (0..others).rev() {
        halve(cell_input(e, b, words, j + 1), 1 << j, v);
    }
    v[0]
}

// The first 2 ^ n bits of a word, the others 0.
pub fn first_bits(n: u32, o: u64) -> u64
    requires { n ≤ most_inputs }
    ensures { result ≡ number 64 (λ i. ltb i (2 ^ n) && bit o i) }
{
    if n < 6 {
        let many: u64 = 1 << n;
        let end: u64 = 1 << many;
        return o % end;
    }
    o
}

// Word w of the table of a sheet of m records.
pub fn sheet_word(e: Edition, n: u32, s: &[u8], m: usize, w: u32) -> u64
    requires edition { IsEdition e × (m ≤ most_records) × (n ≤ most_inputs) × (e.size * m ≤ length s.now)
        × AllReadable e s.now m }
    requires w_bound { 64 * w < 2 ^ n }
    ensures { result ≡ sheet_word e n s.now m w }
{
    let from = n as usize;
    let mut words = inputs(n, w);
    let mut v = [0; PAIRS];
    let mut o: u64 = 0;
    for i in 0..m {
        o = cell_word(e, record_of(e, s, i), &words, &mut v);
        words[from + i] = o;
    }
    first_bits(n, o)
}
