// A report on a procedure file, and its text: one line, without the line break.
ghost use Rattle.std.specs.Prelude.{◌≡◌, IfOk, Some, string_bytes};
ghost use Rattle.report.specs.Lines.{word_of, summary_text, line_of};
ghost use Rattle.report.specs.Reports.{kind_seen};

use fluents::faults::Fault;
use procedure::starts::Start;
use std::alloc::{AllocError, Global};
use std::fmt;

// What the start of a procedure is given by: a partial state, or a list of worlds.
#[derive(Clone, Copy, PartialEq, Eq, Debug)]
pub enum StartKind {
    Partial,
    Worlds,
}

impl From<Start> for StartKind {
    ghost from_gives = { λ start kind. kind ≡ kind_seen start };

    fn from(start: Start) -> StartKind {
        match start {
            Start::Partial(_) => StartKind::Partial,
            Start::Worlds => StartKind::Worlds,
        }
    }
}

// The word `partial` or `worlds`.
impl fmt::Display for StartKind {
    ghost output = { λ kind. Some (word_of kind) };

    fn fmt<W: fmt::Write>(&self, f: &mut fmt::Formatter<W>) -> fmt::Result {
        match self {
            StartKind::Partial => write!(f, "partial"),
            StartKind::Worlds => write!(f, "worlds"),
        }
    }
}

// What a loaded file has.
#[derive(Clone, Copy, PartialEq, Eq, Debug)]
pub struct Summary {
    pub fluents: u8,
    pub actions: usize,
    pub plan_bytes: usize,
    pub start: StartKind,
}

// `loaded` with the fluents, actions, plan bytes and start.
impl fmt::Display for Summary {
    ghost output = { λ summary. Some (summary_text summary) };

    fn fmt<W: fmt::Write>(&self, f: &mut fmt::Formatter<W>) -> fmt::Result {
        let Summary {
            fluents,
            actions,
            plan_bytes,
            start,
        } = self;
        write!(f, "loaded {fluents} {actions} {plan_bytes} {start}")
    }
}

// What is said about a file, as it is printed: what the file has, or why it was refused.
#[derive(Clone, Copy, PartialEq, Eq, Debug)]
pub struct Report {
    pub outcome: Result<Summary, Fault>,
}

// The line of either.
impl fmt::Display for Report {
    ghost output = { λ report. Some (line_of report.outcome) };

    fn fmt<W: fmt::Write>(&self, f: &mut fmt::Formatter<W>) -> fmt::Result {
        match &self.outcome {
            Ok(summary) => write!(f, "{summary}"),
            Err(fault) => write!(f, "{fault}"),
        }
    }
}

// The line as a text of its own.
pub fn line(heap: Global, report: &Result<Summary, Fault>) -> Result<String, AllocError>
    ensures { IfOk result (λ s. string_bytes s ≡ line_of report.now) }
{
    let report = Report { outcome: *report };
    format!(in heap; "{report}")
}

#[cfg(test)]
mod tests {
    use super::*;
    use fluents::faults::Refusal;
    use std::test::Fail;

    #[test]
    fn a_loaded_file_is_counted(rt: HostRuntime) -> Result<(), Fail> {
        let summary = Summary {
            fluents: 3,
            actions: 5,
            plan_bytes: 10,
            start: StartKind::Worlds,
        };
        let text = line(rt.alloc(), &Ok(summary))?;
        assert_eq!(rt; text.as_str(), "loaded 3 5 10 worlds");
        Ok(())
    }

    #[test]
    fn a_refused_file_has_number_and_place(rt: HostRuntime) -> Result<(), Fail> {
        let fault = Refusal::TooManyReadings.at(65535);
        let text = line(rt.alloc(), &Err(fault))?;
        assert_eq!(rt; text.as_str(), "refused 7 65535");
        Ok(())
    }
}
