// What is said about a procedure file, and the one line of text that says it.
#![tactic(auto)]

ghost use Rattle.std.specs.Prelude.{◌≡◌};
ghost use Rattle.procedure.specs.Procedures.{procedure_of};
ghost use Rattle.report.specs.Reports.{report_of};

use fluents::faults::Fault;
use knowledge::worlds::WorldList;
use procedure::loaded::reader::open;
use text::Summary;

pub mod text;

// What is to be said about the file with these bytes.
pub fn report(file: &[u8]) -> Result<Summary, Fault>
    ensures { result ≡ report_of (procedure_of file.now) }
{
    let mut list = WorldList::single(0);
    let opened = open(file, &mut list)?;
    Ok(Summary {
        fluents: opened.loaded.n(),
        actions: opened.loaded.actions(),
        plan_bytes: opened.loaded.plan().bytes.len(),
        start: opened.start.into(),
    })
}
