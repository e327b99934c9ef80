// The readers of a formula, which call each other in a cycle: each call has a byte less before it, or goes one step
// down. They work on a stretch of 256 assignments at a time, the one from 256 w on.
ghost use Rattle.std.specs.Prelude.{◌≡◌, ◌<◌, ◌≤◌, eqb, length};
ghost use Rattle.tables.specs.Table.{most_inputs};
ghost use Rattle.formulas.specs.Text.{byte_at};
ghost use Rattle.formulas.specs.Words.{Yields, Single, closed_at};

use values::stretches::{Stretch, of_input, same};

// A stretch of values that was read, and the place after it.
#[derive(Clone, Copy, Debug, PartialEq, Eq)]
pub struct Read {
    pub values: Stretch,
    pub at: usize,
}

// The place at which the text can't be continued.
#[derive(Clone, Copy, Debug, PartialEq, Eq)]
pub struct Stuck {
    pub at: usize,
}

// The text that is read, with how many inputs, and which stretch of the values is asked for.
#[derive(Clone, Copy)]
pub struct Text<'a> {
    pub bytes: &'a [u8],
    pub inputs: u32,
    pub stretch: u32,
    ghost few: { inputs ≤ most_inputs },
}

impl Text<'_> {
    // Whether a byte stands at a place, which may lie past the end.
    fn has(&self, at: usize, byte: u8) -> bool
        requires { 0 < byte }
        ensures { result ≡ eqb (byte_at self.now.bytes.now at) byte }
    {
        at < self.bytes.len() && self.bytes[at] == byte
    }

    // A sum: terms joined by `|`. Each reader of the grammar stays a function of its own: one over the mark is asked which
    // at each byte, and took twice as long.
    #[cycle(reading)]
    pub fn sum(&self, at: usize, left: usize) -> Result<Read, Stuck>
        requires { at ≤ length self.now.bytes.now }
        ensures { Yields self.now.bytes.now self.now.inputs 3 left at self.now.stretch result }
    {
        let first = self.term(at, left)?;
        if !self.has(first.at, b'|') {
            return Ok(first);
        }
        let rest = self.sum(first.at + 1, left)?;
        Ok(Read {
            values: first.values | rest.values,
            at: rest.at,
        })
    }

    // A term: parts joined by `^`.
    #[cycle(reading)]
    fn term(&self, at: usize, left: usize) -> Result<Read, Stuck>
        requires { at ≤ length self.now.bytes.now }
        ensures { Yields self.now.bytes.now self.now.inputs 2 left at self.now.stretch result }
    {
        let first = self.part(at, left)?;
        if !self.has(first.at, b'^') {
            return Ok(first);
        }
        let rest = self.term(first.at + 1, left)?;
        Ok(Read {
            values: first.values ^ rest.values,
            at: rest.at,
        })
    }

    // A part: factors joined by `&`.
    #[cycle(reading)]
    fn part(&self, at: usize, left: usize) -> Result<Read, Stuck>
        requires { at ≤ length self.now.bytes.now }
        ensures { Yields self.now.bytes.now self.now.inputs 1 left at self.now.stretch result }
    {
        let first = self.factor(at, left)?;
        if !self.has(first.at, b'&') {
            return Ok(first);
        }
        let rest = self.part(first.at + 1, left)?;
        Ok(Read {
            values: first.values & rest.values,
            at: rest.at,
        })
    }

    // A factor of one byte, which is neither `!` nor `(`: a letter, `0` or `1`.
    fn single(&self, at: usize) -> Result<Read, Stuck>
        requires { at < length self.now.bytes.now }
        ensures { Single self.now.bytes.now self.now.inputs at self.now.stretch result }
    {
        let values = match self.bytes[at] {
            b'0' => same(0),
            b'1' => same(!0),
            b if b'a' <= b && b < b'a' + self.inputs as u8 => of_input(
                (b - b'a') as u32,
                self.stretch,
            ),
            _ => return Err(Stuck { at }),
        };
        Ok(Read { values, at: at + 1 })
    }

    // `)` after what was read.
    fn closed(&self, inner: Read) -> Result<Read, Stuck>
        ensures { result ≡ closed_at self.now.bytes.now inner.values inner.at }
    {
        if !self.has(inner.at, b')') {
            return Err(Stuck { at: inner.at });
        }
        Ok(Read {
            values: inner.values,
            at: inner.at + 1,
        })
    }

    // A factor: one byte, `!` before a factor, or a sum in parentheses; the last two are one level down.
    #[cycle(reading)]
    fn factor(&self, at: usize, left: usize) -> Result<Read, Stuck>
        requires { at ≤ length self.now.bytes.now }
        ensures { Yields self.now.bytes.now self.now.inputs 0 left at self.now.stretch result }
    {
        if self.bytes.len() <= at {
            return Err(Stuck { at });
        }
        match self.bytes[at] {
            b'!' if 0 < left => {
                let turned = self.factor(at + 1, left - 1)?;
                Ok(Read {
                    values: !turned.values,
                    at: turned.at,
                })
            }
            b'(' if 0 < left => {
                let inner = self.sum(at + 1, left - 1)?;
                self.closed(inner)
            }
            b'!' | b'(' => Err(Stuck { at }),
            _ => self.single(at),
        }
    }
}
