// Reads a procedure file from standard input, and prints in one line what is to be said about it.
#![tactic(auto)]

ghost use Rattle.std.specs.Prelude.{IfOk};
ghost use Rattle.intake.specs.Starts.{IsStart};

use intake::{exit_code, first_bytes};
use report::text::Report;
use std::alloc::Global;
use std::io;
use std::io::Read;
use std::process::ExitCode;

// The most bytes that a file is taken to have; what the input has after them is not read.
const FILE_LIMIT: usize = 65536;

// The whole input, or its first bytes up to the limit. It stands here, and not in
// `intake`, so that the contract fixes this program's limit.
fn read_file<R: Read + Drop>(heap: Global, input: R) -> io::Result<Vec<u8>>
    ensures { IfOk result (λ file. IsStart 65536 (R.remaining input) file.items) }
{
    first_bytes(heap, input, FILE_LIMIT)
}

// Reads the file, and prints the line.
fn run(rt: &HostRuntime) -> io::Result<()> {
    let file = read_file(rt.alloc(), rt.stdin())?;
    let report = Report {
        outcome: report::report(file.as_slice()),
    };
    println!(rt; "{report}")
}

// An error of reading, memory or printing ends the program with status 1 and a message.
fn main(rt: HostRuntime) -> ExitCode {
    exit_code(&rt, "rowcheck", run(&rt))
}
