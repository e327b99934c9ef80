// The bench program: one byte n, one byte K, then the table to the end of standard input. It writes the answer number
// as one byte, then the sheet; after a refusal only that byte. What is handed over to be written is defined of the
// bytes read alone (`written`, programs/specs/BenchProgram).
#![tactic(auto)]

ghost use Rattle.std.specs.Prelude.{◌≡◌, length};
ghost use Rattle.tables.specs.Work.{work_length};
ghost use Rattle.programs.specs.BenchProgram.{most_read, most_written};

use programs::bench_program::{MOST_READ, MOST_WRITTEN, answer_input};
use streams::{read_input, write_output};
use tables::WORK;

fn input_room() -> [u8; MOST_READ]
    ensures { most_read ≡ length result }
{
    [0; MOST_READ]
}

fn output_room() -> [u8; MOST_WRITTEN]
    ensures { most_written ≡ length result }
{
    [0; MOST_WRITTEN]
}

fn work_room() -> [u8; WORK]
    ensures { work_length ≡ length result }
{
    [0; WORK]
}

fn main(rt: HostRuntime) {
    let mut input = input_room();
    let got = read_input(&mut rt.stdin(), &mut input);
    let mut out = output_room();
    let mut work = work_room();
    let count = answer_input(&input[..got], &mut out, &mut work);
    write_output(&mut rt.stdout(), &out, count);
}
