// The inspecting program: one byte n, then the table, then the sheet to the end of standard input. It writes the answer
// number, a space and the place in decimal. What is handed over to be written is defined of the bytes read alone
// (`written`, programs/specs/InspectProgram).
#![tactic(auto)]

ghost use Rattle.std.specs.Prelude.{◌≡◌, length};
ghost use Rattle.programs.specs.InspectProgram.{most_read, most_written};

use programs::inspect_program::{MOST_READ, MOST_WRITTEN, answer_input};
use streams::{read_input, write_output};

fn input_room() -> [u8; MOST_READ]
    ensures { most_read ≡ length result }
{
    [0; MOST_READ]
}

fn output_room() -> [u8; MOST_WRITTEN]
    ensures { most_written ≡ length result }
{
    [0; MOST_WRITTEN]
}

fn main(rt: HostRuntime) {
    let mut input = input_room();
    let got = read_input(&mut rt.stdin(), &mut input);
    let mut out = output_room();
    let count = answer_input(&input[..got], &mut out);
    write_output(&mut rt.stdout(), &out, count);
}
