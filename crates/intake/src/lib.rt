// What all programs do: take the first bytes of an input, and end with a status.
#![tactic(auto)]

ghost use Rattle.std.specs.Prelude.{◌≡◌, ◌↔◌, IfOk, IsOk, IsErr};
ghost use Rattle.std.specs.Process.{exit_status};
ghost use Rattle.intake.specs.Starts.{IsStart};

use std::alloc::Global;
use std::io;
use std::io::Read;
use std::process::ExitCode;

// The whole input, or its first bytes up to the limit.
pub fn first_bytes<R: Read + Drop>(heap: Global, input: R, limit: usize) -> io::Result<Vec<u8>>
    ensures { IfOk result (λ file. IsStart limit (R.remaining input) file.items) }
{
    let mut file = Vec::new(heap);
    input.take(limit as u64).read_to_end(&mut file)?;
    // `take` stops there too, but where the bytes of an input are not known no contract says so
    file.truncate(limit);
    Ok(file)
}

// The status of a program that is done: 0, or 1 with a message where reading, memory or printing failed. If the
// message cannot be written, the status is the same.
pub fn exit_code(rt: &impl Eprint, program: &str, done: io::Result<()>) -> ExitCode
    ensures success { (exit_status result ≡ 0) ↔ IsOk done }
    ensures failure { (exit_status result ≡ 1) ↔ IsErr done }
{
    match done {
        Ok(()) => ExitCode::SUCCESS,
        Err(e) => {
            let _ = eprintln!(rt; "{program}: {e}");
            ExitCode::FAILURE
        }
    }
}

#[cfg(test)]
mod tests {
    use super::*;
    use std::cell::OnceCell;
    use std::fmt::Display;
    use std::test::*;

    #[test]
    fn more_than_the_limit_is_cut_off(rt: HostRuntime) -> Result<(), Fail> {
        let input: &[u8] = &[1, 2, 3, 4, 5];
        let file = first_bytes(rt.alloc(), input, 3)?;
        assert_eq!(rt; file.len(), 3);
        assert_eq!(rt; file[0], 1);
        assert_eq!(rt; file[2], 3);
        Ok(())
    }

    #[test]
    fn a_shorter_input_is_whole(rt: HostRuntime) -> Result<(), Fail> {
        let input: &[u8] = &[1, 2];
        let file = first_bytes(rt.alloc(), input, 3)?;
        assert_eq!(rt; file.len(), 2);
        assert_eq!(rt; file[1], 2);
        Ok(())
    }

    // Keeps the line that is said.
    #[derive(Drop)]
    struct Said {
        heap: Global,
        line: OnceCell<String>,
    }

    impl Eprint for Said {
        fn eprint<D: Display + Drop>(&self, value: D) -> io::Result<()> {
            let _ = self.line.set(value.to_string(self.heap)?);
            Ok(())
        }

        fn eprintln<D: Display + Drop>(&self, value: D) -> io::Result<()> {
            self.eprint(value)
        }
    }

    #[test]
    fn an_error_is_said_with_the_name_of_the_program(rt: HostRuntime) -> Result<(), Fail> {
        let said = Said {
            heap: rt.alloc(),
            line: OnceCell::new(),
        };
        assert!(rt; exit_code(&said, "rowcheck", Ok(())) == ExitCode::SUCCESS);
        assert!(rt; said.line.get().is_none());
        let failed = Err(io::ErrorKind::UnexpectedEof.into());
        assert!(rt; exit_code(&said, "rowcheck", failed) == ExitCode::FAILURE);
        let line = said.line.get().map(|text| text.as_str());
        assert!(rt; line == Some("rowcheck: unexpected end of file"));
        Ok(())
    }
}
