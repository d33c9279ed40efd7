// The text of a report on a procedure file, each line with its break.
ghost use Rattle.std.specs.Prelude.{◌≡◌, IfOk, Some, string_bytes};
ghost use Rattle.verdicts.specs.Lines.{findings_text, text_of};

use crate::findings::Findings;
use fluents::faults::Fault;
use std::alloc::{AllocError, Global};
use std::fmt;

// The verdict, how many rows there are, and a line for each row: its true fluents, then its false ones.
impl fmt::Display for Findings {
    ghost output = { λ found. Some (findings_text found) };

    fn fmt<W: fmt::Write>(&self, f: &mut fmt::Formatter<W>) -> fmt::Result {
        let rows = self.rows();
        writeln!(f, "{}\nrows {}", self.verdict(), rows.len())?;
        for row in rows {
            writeln!(f, "{} {}", row.trues, row.falses)?;
        }
        Ok(())
    }
}

// The whole text: what was found, or why the file was refused.
pub fn text(heap: Global, report: &Result<Findings, Fault>) -> Result<String, AllocError>
    ensures { IfOk result (λ s. string_bytes s ≡ text_of report.now) }
{
    match report {
        Ok(found) => format!(in heap; "{found}"),
        Err(fault) => format!(in heap; "{fault}\n"),
    }
}

#[cfg(test)]
mod tests {
    use super::*;
    use fluents::faults::Refusal;
    use knowledge::states::Row;
    use meaning::answers::{Cause, Verdict};
    use std::test::Fail;

    #[test]
    fn findings_are_a_verdict_and_rows(rt: HostRuntime) -> Result<(), Fail> {
        let mut rows = [Row {
            trues: 0,
            falses: 0,
        }; 16];
        rows[0].falses = 5;
        rows[1].trues = u64::MAX;
        let verdict = Verdict::Fails {
            place: 189,
            cause: Cause::Gap,
        };
        let found = Findings::new(verdict, rows, 2);
        let text = text(rt.alloc(), &Ok(found))?;
        assert_eq!(rt;
            text.as_str(),
            "fails 189 3\nrows 2\n0 5\n18446744073709551615 0\n"
        );
        Ok(())
    }

    #[test]
    fn a_refused_file_has_number_and_place(rt: HostRuntime) -> Result<(), Fail> {
        let fault = Refusal::TooManyRows.at(65535);
        let text = text(rt.alloc(), &Err(fault))?;
        assert_eq!(rt; text.as_str(), "refused 9 65535\n");
        Ok(())
    }
}
