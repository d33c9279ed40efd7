// What is to be said about a procedure file: the verdict at its start and its rows, or a refusal.
#![tactic(auto)]

ghost use Rattle.std.specs.Prelude.{◌≡◌, Ok};
ghost use Rattle.procedure.specs.Procedures.{procedure_of};
ghost use Rattle.verdicts.specs.Reports.{Found, Reported};
ghost use Rattle.procedure.specs.Asked.{IfLoads};

use findings::Findings;
use fluents::faults::Fault;
use knowledge::kinds::Knowledge;
use knowledge::states::Row;
use knowledge::worlds::WorldList;
use procedure::loaded::Loaded;
use procedure::loaded::reader::open;
use procedure::starts::Start;
use regression::listing::rows;
use runs::follow::follow;

pub mod findings;
pub mod text;

// The verdict at the start and the rows; where there are too many rows, only that is said.
fn checked<K: Knowledge>(loaded: &Loaded, start: K) -> Result<Findings, Fault>
    ensures { IfLoads loaded.now (λ p. Found p (K.worlds start) result) }
{
    let verdict = follow(loaded, start);
    let mut listed = [Row {
        trues: 0,
        falses: 0,
    }; 16];
    let count = rows(loaded, &mut listed)?;
    Ok(Findings::new(verdict, listed, count))
}

// What is to be said about the file with these bytes.
pub fn report(file: &[u8]) -> Result<Findings, Fault>
    ensures { Reported (procedure_of file.now) result }
{
    let mut list = WorldList::single(0);
    let opened = open(file, &mut list)?;
    match opened.start {
        Start::Partial(state) => checked(&opened.loaded, state),
        Start::Worlds => checked(&opened.loaded, list),
    }
}
