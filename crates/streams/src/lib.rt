// A reader and a writer as a program uses them: the beginning of the input comes into a room that is lent, and some
// bytes go out.
#![tactic(auto)]

ghost use Rattle.std.specs.Prelude.{◌≡◌, ◌≤◌, IfSome, length, take};
ghost use Rattle.std.specs.Io.{StartsWith};
ghost use Rattle.std.specs.Io.KnownBytes.{Consumes};
ghost use Rattle.streams.specs.Handed.{AppendsFront};

use std::io::{Read, Write};

// Reads some more and forgets it; whether there was any.
fn pass_over<R: Read>(input: &mut R) -> bool {
    let mut scratch = [0; 65536];
    matches!(input.read(&mut scratch), Ok(count) if count > 0)
}

// Reads the input to its end, so that whoever writes a longer one isn't cut off. A proved loop has to end, and nothing
// says that the input does: so its turns have a number, which no run uses up.
fn pass_over_rest<R: Read>(input: &mut R) {
    for _ in 0..u64::MAX {
        if !pass_over(input) {
            break;
        }
    }
}

// Reads into room until it is full, the input ends or a read fails; how many bytes they are. Not `read_exact`: of an
// input that ends early it promises nothing, not even how much was read.
fn fill<R: Read>(input: &mut R, room: &mut [u8]) -> usize
    ensures bound { result ≤ length room.new }
    ensures count { result ≡ length (take result room.new) }
    ensures bytes { Consumes (R.remaining input.old) (R.remaining input.new) (take result room.new) }
{
    let mut got = 0;
    while got < room.len() {
        match input.read(&mut room[got..]) {
            Ok(count) if count > 0 => got += count,
            _ => break,
        }
    }
    got
}

// Reads the input into the first bytes of room; how many they are. What has no room is passed over.
pub fn read_input<R: Read>(input: &mut R, room: &mut [u8]) -> usize
    ensures bound { result ≤ length room.new }
    ensures count { result ≡ length (take result room.new) }
    ensures bytes { IfSome (R.remaining input.old) (λ xs. StartsWith xs (take result room.new)) }
{
    let got = fill(input, room);
    if got == room.len() {
        pass_over_rest(input);
    }
    got
}

// Writes bytes until they are all written or a write fails. Not `write_all`: of a write that fails it promises nothing,
// and that what went out is the beginning of the bytes has to hold even then.
fn hand_over<W: Write>(output: &mut W, bytes: &[u8])
    ensures { AppendsFront (W.contents output.old) (W.contents output.new) bytes.now }
{
    let mut done = 0;
    while done < bytes.len() {
        match output.write(&bytes[done..]) {
            Ok(count) if count > 0 => done += count,
            _ => break,
        }
    }
}

// Writes the first count bytes of room. Nobody is told of a write that fails.
pub fn write_output<W: Write>(output: &mut W, room: &[u8], count: usize)
    requires { count ≤ length room.now }
    ensures { AppendsFront (W.contents output.old) (W.contents output.new) (take count room.now) }
{
    hand_over(output, &room[..count]);
}
