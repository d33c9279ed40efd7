// A whole visit along a list of readings.
ghost use Rattle.std.specs.Prelude.{◌≡◌, List, Ok};
ghost use Rattle.meaning.specs.Laws.{IfCovered};
ghost use Rattle.meaning.specs.Steps.{tree_of};
ghost use Rattle.meaning.specs.Walks.{Walks};
ghost use Rattle.panel.specs.Cases.{worlds_in};
ghost use Rattle.panel.specs.Confirming.{GivenBack};
ghost use Rattle.panel.specs.Visiting.{VisitedAs, CoveredVisit};
ghost use Rattle.procedure.specs.Asked.{IfLoads};

use crate::answers::{Confirmed, Denied, Over, Rejection};
use crate::armed::Armed;
use crate::known::Known;
use meaning::answers::Stop;
use procedure::loaded::Loaded;
use runs::walk::Walked;

// The visit, which came to the walk or was rejected by Arm, and the word, which is given back as it was lent.
#[derive(Drop)]
pub struct Finished<'w> {
    pub visited: Result<Walked, Rejection>,
    pub word: &'w mut u32,
}

// Confirms a run along the readings until it has ended; a reading for which no value is left is withdrawn.
fn confirm_along<'f, 'w>(armed: Armed<'f, 'w>, readings: &[bool]) -> (Walked, Over<'f, 'w>)
    ensures walk { IfLoads armed.entry.permitted.loaded.value (λ p. armed.entry.run.place ≡ p.place → Walks p.goal (tree_of p) (worlds_in armed.entry.run.knowledge) readings.now result.0.used result.0.stop) }
    ensures back { GivenBack armed.entry.permitted result.1 }
{
    let mut armed = armed;
    let mut left = readings;
    loop {
        let used = readings.len() - left.len();
        match armed.confirm() {
            Confirmed::Did {
                number: _,
                armed: next,
            } => armed = next,
            Confirmed::Reads(reading) => {
                let Some((value, rest)) = left.split_first() else {
                    let place = reading.place();
                    let stop = Stop::UsedUp { place };
                    return (Walked { stop, used }, reading.withdraw());
                };
                left = rest;
                match reading.settle(*value) {
                    Ok(next) => armed = next,
                    Err(Denied { over, fault }) => {
                        let stop = Stop::Refused(fault);
                        let used = used + 1;
                        return (Walked { stop, used }, over);
                    }
                }
            }
            Confirmed::Ended(over) => {
                let stop = Stop::EndedWell;
                return (Walked { stop, used }, over);
            }
        }
    }
}

// Arms the procedure, and confirms along the readings; a reading for which no value is left is withdrawn. The run is the
// walk from the start along the readings, and the word comes back as it was before Arm.
pub fn visit<'f, 'w>(
    loaded: Loaded<'f>,
    start: Known,
    word: &'w mut u32,
    readings: &[bool],
) -> Finished<'w>
    ensures value { IfLoads loaded.entry (λ p. VisitedAs p start readings.now result.visited) }
    ensures word { (result.word.ghost_name ≡ word.entry.ghost_name) × (result.word.now ≡ word.old) }
    ensures covered { IfLoads loaded.entry (λ p. IfCovered p (worlds_in start) (CoveredVisit p start readings.now result.visited)) }
{
    let (visited, over) = match Armed::arm(loaded, start, word) {
        Ok(armed) => {
            let (walked, over) = confirm_along(armed, readings);
            (Ok(walked), over)
        }
        Err(unarmed) => (Err(unarmed.why), unarmed.over),
    };
    let Over { loaded: _, word } = over;
    Finished { visited, word }
}
