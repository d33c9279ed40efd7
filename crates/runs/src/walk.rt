// The walk along a list of readings.
ghost use Rattle.std.specs.Prelude.{◌≡◌, List, Ok};
ghost use Rattle.knowledge.specs.declared.states.Row.{Row};
ghost use Rattle.meaning.specs.Laws.{NoFailure, Safe, IfCovered};
ghost use Rattle.meaning.specs.Rows.{rows_of};
ghost use Rattle.meaning.specs.Steps.{tree_of};
ghost use Rattle.meaning.specs.Walks.{Walks, Agrees};
ghost use Rattle.meaning.specs.declared.answers.Stop.TheVariants.{EndedWell};
ghost use Rattle.procedure.specs.Asked.{IfLoads};

use crate::run::{Run, Step};
use knowledge::kinds::Knowledge;
use meaning::answers::Stop;
use procedure::loaded::Loaded;

// How a walk stopped, and how many values it took. A value that was refused was taken.
#[derive(Clone, Copy, PartialEq, Eq, Debug)]
pub struct Walked {
    pub stop: Stop,
    pub used: usize,
}

// The walk from the root with the start, one value for each reading that it comes to. From a start that a listed row covers
// it comes to no failing node, and where the readings agree with the start it ends well; `safe` says the same of every list
// of readings.
pub fn walk<K: Knowledge>(loaded: &Loaded, start: K, readings: &[bool]) -> Walked
    ensures value { IfLoads loaded.now (λ p. Walks p.goal (tree_of p) (K.worlds start) readings.now result.used result.stop) }
    ensures covered { IfLoads loaded.now (λ p. IfCovered p (K.worlds start) (NoFailure result.stop × (Agrees p.goal (tree_of p) (K.worlds start) readings.now → result.stop ≡ EndedWell))) }
    ensures safe { IfLoads loaded.now (λ p. (rs : List Row) → rows_of p.goal (tree_of p) ≡ Ok rs → Safe p.goal (tree_of p) rs (K.worlds start)) }
{
    let mut run = Run::begin(loaded, start);
    let mut left = readings;
    let stop = loop {
        match run.step(loaded) {
            Step::Did {
                number: _,
                run: next,
            } => run = next,
            Step::Asks(pending) => {
                let Some((value, later)) = left.split_first() else {
                    break Stop::UsedUp {
                        place: pending.place(),
                    };
                };
                left = later;
                match pending.settle(loaded, *value) {
                    Ok(next) => run = next,
                    Err(fault) => break Stop::Refused(fault),
                }
            }
            Step::Ended => break Stop::EndedWell,
            Step::Failed { place, cause } => break Stop::Failed { place, cause },
        }
    };
    Walked {
        stop,
        used: readings.len() - left.len(),
    }
}
