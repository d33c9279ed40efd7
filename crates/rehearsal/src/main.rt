// Rehearses a visit to the panel: reads a procedure file from standard input, takes the values of its readings as
// arguments, and prints a record of what happens.
#![tactic(auto)]

ghost use Rattle.std.specs.Prelude.{IfOk};
ghost use Rattle.intake.specs.Starts.{IsStart};

use intake::{exit_code, first_bytes};
use settlements::{ParseError, parse};
use std::alloc::Global;
use std::io::Read;
use std::process::ExitCode;
use std::{env, io};
use visit::visit;

mod lines;
mod settlements;
mod visit;

// The most bytes that a file is taken to have; what the input has after them is not read.
const FILE_LIMIT: usize = 65536;

// The whole input, or its first bytes up to the limit. It stands here, and not in
// `intake`, so that the contract fixes this program's limit.
fn read_file<R: Read + Drop>(heap: Global, input: R) -> io::Result<Vec<u8>>
    ensures { IfOk result (λ file. IsStart 65536 (R.remaining input) file.items) }
{
    first_bytes(heap, input, FILE_LIMIT)
}

// Takes the arguments first, and the file only where all of them are allowed.
fn run(rt: &HostRuntime) -> io::Result<()> {
    let settlements = match parse(rt.alloc(), env::args(rt)?) {
        Ok(settlements) => settlements,
        Err(ParseError::Word(word)) => {
            return println!(rt; "bad argument '{word}': allowed are true, false and withdraw");
        }
        Err(ParseError::Memory(e)) => return Err(e.into()),
    };
    let file = read_file(rt.alloc(), rt.stdin())?;
    let record = visit(rt.alloc(), file.as_slice(), settlements.as_slice())?;
    print!(rt; "{record}")
}

// An error of reading, memory or printing ends the program with status 1 and a message.
fn main(rt: HostRuntime) -> ExitCode {
    exit_code(&rt, "rehearsal", run(&rt))
}
