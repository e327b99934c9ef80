// The record rules, and a sheet looked over by them.
ghost use Rattle.std.specs.Prelude.{◌≡◌, ◌+◌, ◌-◌, ◌*◌, ◌<◌, ◌≤◌, length};
ghost use Rattle.bits.specs.Places.{found_below};
ghost use Rattle.tables.specs.Table.{most_inputs};
ghost use Rattle.sheets.specs.Edition.{IsEdition, most_records};
ghost use Rattle.sheets.specs.Record.{spare_ok, byte_ok, byte_at, keeps};
ghost use Rattle.sheets.specs.Sheet.{record_bytes, first_bad};
ghost use Rattle.records.specs.Look.{Saw};

use sheets::kinds::{Edition, HeldCell, Sheet};

// The bytes of record i.
pub fn record_of(e: Edition, s: &[u8], i: usize) -> &[u8]
    requires { IsEdition e × (i < most_records) × (e.size * i + e.size ≤ length s.now) }
    ensures { result.now ≡ record_bytes e s.now i }
{
    let a = e.size * i;
    let z = a + e.size;
    &s[a..z]
}

// Whether byte m of a table of w bits has no bit from w up.
fn spare_ok(w: usize, m: usize, x: u8) -> bool
    requires { (w ≤ 256) × (m < 48) }
    ensures { result ≡ spare_ok w m x }
{
    let from = 8 * m;
    if w <= from {
        return x == 0;
    }
    let left = w - from;
    if 8 <= left {
        return true;
    }
    x >> left == 0
}

// Whether byte j + 1 of a record of k signals, which is x after p, keeps the rules.
fn byte_ok(e: Edition, d: u8, top: usize, k: usize, j: usize, p: u8, x: u8) -> bool
    requires { IsEdition e × (k ≤ e.most) × (j + 1 < e.size) }
    ensures { result ≡ byte_ok e d top k j p x }
{
    if j < e.most {
        if j < k {
            if top <= x as usize {
                return false;
            }
            if j == 0 {
                return true;
            }
            return p < x;
        }
        return x == HeldCell::UNUSED;
    }
    if j == e.most {
        return x == d;
    }
    if j + 1 < e.start {
        return x == 0;
    }
    spare_ok(1 << k, j + 1 - e.start, x)
}

// Whether a record keeps the rules, where the signals below top may be read.
pub fn record_ok(e: Edition, d: u8, top: usize, b: &[u8]) -> bool
    requires { IsEdition e × (length b.now ≡ e.size) }
    ensures { result ≡ keeps e d top (byte_at b.now) }
{
    let k = b[0] as usize;
    if k < 1 {
        return false;
    }
    if e.most < k {
        return false;
    }
    for j in 0..e.size - 1 {
        if !byte_ok(e, d, top, k, j, b[j], b[j + 1]) {
            return false;
        }
    }
    true
}

// The first of m records that breaks the rules.
pub fn first_bad(e: Edition, d: u8, n: u32, s: &[u8], m: usize) -> Option<usize>
    requires { IsEdition e × (m ≤ most_records) × (n ≤ most_inputs) × (e.size * m ≤ length s.now) }
    ensures { result ≡ found_below m (first_bad e d n s.now m) }
{
    for i in 0..m {
        if !record_ok(e, d, n as usize + i, record_of(e, s, i)) {
            return Some(i);
        }
    }
    None
}

// What is wrong with a sheet: its length, or its first record that breaks the rules.
#[derive(Clone, Copy, Debug, PartialEq, Eq)]
pub enum BadSheet {
    Length,
    Record(usize),
}

// A sheet looked over: how many records it has, if nothing is wrong.
pub fn look(e: Edition, d: u8, n: u32, s: &[u8]) -> Result<usize, BadSheet>
    requires { IsEdition e × (n ≤ most_inputs) }
    ensures { Saw e d n s.now result }
{
    let len = s.len();
    if len == 0 {
        return Err(BadSheet::Length);
    }
    if len % e.size != 0 {
        return Err(BadSheet::Length);
    }
    if e.size * Sheet::RECORDS < len {
        return Err(BadSheet::Length);
    }
    let m = len / e.size;
    match first_bad(e, d, n, s, m) {
        Some(i) => Err(BadSheet::Record(i)),
        None => Ok(m),
    }
}
