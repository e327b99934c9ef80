// The inputs that count, tested on whole words.
ghost use Rattle.std.specs.Prelude.{◌≡◌, ◌-◌, ◌*◌, ◌^◌, ◌<◌, ◌≤◌, length};
ghost use Rattle.tables.specs.Table.{most_inputs, table_length, table_bit};
ghost use Rattle.tables.specs.Counting.{counts, support, kept, CountingIn};
ghost use Rattle.tables.specs.Words.{gate_word, HalfWord, WordWithout, Compared, Live};

use crate::words::{short_word, table_word};
use bits::patterns::of_input;
use bits::sets::{members, next, parts};

// Word w of the table of n inputs, spare bits zero; with fewer than 6 inputs there is one word, and it is not full.
pub fn word_of(t: &[u8], n: u32, w: usize) -> u64
    requires { (2 ^ n ≤ 8 * length t.now) × (w < 2 ^ (n - 6)) }
    ensures { result ≡ gate_word n (table_bit t.now) w }
{
    if n < 6 {
        short_word(t, n as usize)
    } else {
        table_word(t, w)
    }
}

// The half of a word where input j is 0, for an input that changes within a word; from input 6 on there is none.
fn lower_half(j: u32) -> Option<u64>
    ensures { HalfWord j result }
{
    if j < 6 { Some(!of_input(j)) } else { None }
}

// Whether the bit changes, in word w, as input j is set: by comparing the word's own halves, or the word with another.
fn changes(t: &[u8], n: u32, j: u32, half: Option<u64>, w: usize) -> bool
    requires { (length t.now ≡ table_length n) × (n ≤ most_inputs) × (j < n) × HalfWord j half × WordWithout n j w }
    ensures { Compared n (table_bit t.now) j w result }
{
    let here = word_of(t, n, w);
    match half {
        Some(half) => {
            let shift: u32 = 1 << j;
            (here >> shift) & half != here & half
        }
        None => {
            let step: usize = 1 << (j - 6);
            here != word_of(t, n, w + step)
        }
    }
}

// How many of n inputs number the words of a table.
pub fn above_words(n: u32) -> u32
    ensures { result ≡ n - 6 }
{
    n.saturating_sub(6)
}

// Whether input j counts, where the table sees the inputs of `live` alone: the other inputs of a word's number stay 0.
fn counts_in(t: &[u8], n: u32, live: u16, j: u32) -> bool
    requires { (length t.now ≡ table_length n) × (n ≤ most_inputs) × (j < n) × Live n (table_bit t.now) live j }
    ensures { result ≡ counts n (table_bit t.now) j }
{
    let half = lower_half(j);
    let top = above_words(n);
    let others = (live & !(1 << j)) >> 6;
    let many = parts(top, others);
    let mut w: u32 = 0;
    for _v in 0..many {
        if changes(t, n, j, half, w as usize) {
            return true;
        }
        w = next(top, others, w);
    }
    false
}

// The mask of the inputs that count: from the highest down, one that does not is set aside before the next is looked
// at.
pub fn support_of(t: &[u8], n: u32) -> u16
    requires { (length t.now ≡ table_length n) × (n ≤ most_inputs) }
    ensures { result ≡ support n (table_bit t.now) }
{
    let all: u32 = (1 << n) - 1;
    let mut live = all as u16;
    for j in (0..n).rev() {
        if !counts_in(t, n, live, j) {
            live -= 1 << j;
        }
    }
    live
}

// The inputs that count: their mask, and how many they are.
#[derive(Clone, Copy)]
pub struct CountingInputs {
    pub mask: u16,
    pub many: u32,
}

// The inputs of a table that count.
pub fn counting_inputs(t: &[u8], n: u32) -> CountingInputs
    requires { (length t.now ≡ table_length n) × (n ≤ most_inputs) }
    ensures { CountingIn n (table_bit t.now) result }
{
    let mask = support_of(t, n);
    let many = members(mask);
    CountingInputs { mask, many }
}

// The mask of the inputs that are kept: those that count, and of a constant the first, since a table has one.
pub fn kept_of(t: &[u8], n: u32) -> u16
    requires { (length t.now ≡ table_length n) × (n ≤ most_inputs) }
    ensures { result ≡ kept n (table_bit t.now) }
{
    support_of(t, n).max(1)
}
