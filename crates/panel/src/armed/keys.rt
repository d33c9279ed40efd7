// The keys of an armed run.
ghost use Rattle.std.specs.Prelude.{◌≡◌, ◌<◌, true, List, length, is_ok, Ok, MatchResult};
ghost use Rattle.meaning.specs.Laws.{IfCovered};
ghost use Rattle.panel.specs.Arming.{ArmedAs, RefusedAs};
ghost use Rattle.panel.specs.Cases.{worlds_in};
ghost use Rattle.panel.specs.Confirming.{ConfirmedAs, GivenBack, Keeps, Onward};
ghost use Rattle.procedure.specs.Asked.{IfLoads, IfNode};

use super::Armed;
use crate::answers::{Confirmed, Over, Rejection};
use crate::known::Known;
use crate::permitted::Permitted;
use crate::reading::Reading;
use fluents::faults::Refusal;
use kept::Kept;
use meaning::answers::Verdict;
use permit::Permit;
use procedure::loaded::Loaded;
use runs::follow::follow;
use runs::run::{Run, Step};

// What a refused Arm gives back: the procedure and the word as they were, the start, and why the plan fails.
#[derive(Drop)]
pub struct Unarmed<'f, 'w> {
    pub over: Over<'f, 'w>,
    pub start: Known,
    pub why: Rejection,
}

impl<'f, 'w> Armed<'f, 'w> {
    // Follows the plan from the start, and then raises the permit; where the plan fails, nothing is changed.
    pub fn arm(
        loaded: Loaded<'f>,
        start: Known,
        word: &'w mut u32,
    ) -> Result<Armed<'f, 'w>, Unarmed<'f, 'w>>
        ensures value { MatchResult result (ArmedAs loaded.entry start word.entry) (RefusedAs loaded.entry start word.entry) }
        ensures covered { IfLoads loaded.entry (λ p. IfCovered p (worlds_in start) (is_ok result ≡ true)) }
    {
        match follow(&loaded, start) {
            Verdict::Holds => {
                let run = Run::begin(&loaded, start);
                let permit = Permit::raise(word);
                let loaded = Kept::put(loaded);
                let permitted = Permitted { loaded, permit };
                Ok(Armed { permitted, run })
            }
            Verdict::Fails { place, cause } => {
                let fault = Refusal::VerdictFails.at(place);
                let loaded = Kept::put(loaded);
                Err(Unarmed {
                    over: Over { loaded, word },
                    start,
                    why: Rejection { fault, cause },
                })
            }
        }
    }

    // The place of the node at which the run stands, within the file.
    pub fn place(&self) -> usize
        ensures value { result ≡ self.now.run.place }
        ensures within { result < length self.now.permitted.loaded.value.file.now }
    {
        self.run.place()
    }

    // The permit word as it is now.
    pub fn word(&self) -> u32
        ensures { result ≡ self.now.permitted.permit.word.now }
    {
        self.permitted.permit.value()
    }

    // One node of the plan: its action is done, its reading waits, or the plan ends.
    pub fn confirm(self) -> Confirmed<'f, 'w>
        ensures value { IfLoads self.entry.permitted.loaded.value (λ p. IfNode p self.entry.run.place (λ q. ConfirmedAs p.goal p.actions self.entry q result)) }
        ensures kept { Keeps self.entry.permitted result }
        ensures onward { Onward self.entry.run.place result }
    {
        let Armed { permitted, run } = self;
        let Permitted { loaded, permit } = permitted;
        let loaded = loaded.take();
        let step = run.step(&loaded);
        let loaded = Kept::put(loaded);
        let permitted = Permitted { loaded, permit };
        match step {
            Step::Did { number, run } => {
                let armed = Armed { permitted, run };
                Confirmed::Did { number, armed }
            }
            Step::Asks(pending) => Confirmed::Reads(Reading { permitted, pending }),
            Step::Ended => Confirmed::Ended(permitted.end()),
            Step::Failed { place: _, cause: _ } => unreachable(),
        }
    }

    // The run is given up, which ends it.
    pub fn give_up(self) -> Over<'f, 'w>
        ensures { GivenBack self.entry.permitted result }
    {
        let Armed { permitted, run: _ } = self;
        permitted.end()
    }
}
