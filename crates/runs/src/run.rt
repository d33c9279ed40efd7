// The steps of a run: it stands at a node of a loaded plan with what is then known.
ghost use Rattle.std.specs.Prelude.{◌≡◌, Ok};
ghost use Rattle.runs.specs.Stepping.{Stepped};
ghost use Rattle.procedure.specs.Asked.{IfLoads, IfNode};

use crate::conditions::knows_all;
use crate::pending::Pending;
use knowledge::kinds::Knowledge;
use meaning::answers::Cause;
use meaning::nodes::{Node, node_at};
use procedure::loaded::Loaded;

// A run at a node: its place in the file, and what is known there.
#[derive(Clone, Copy)]
pub struct Run<K> {
    pub(crate) place: usize,
    pub(crate) knowledge: K,
}

// What a step comes to: an action was done, and the run goes on; a reading waits; the plan has ended with the goal known;
// or the node fails.
#[derive(Clone, Copy)]
pub enum Step<K> {
    Did { number: u8, run: Run<K> },
    Asks(Pending<K>),
    Ended,
    Failed { place: usize, cause: Cause },
}

impl<K: Knowledge> Run<K> {
    // The run at the root of the plan.
    pub fn begin(loaded: &Loaded, start: K) -> Run<K>
        ensures { (result.knowledge ≡ start) × IfLoads loaded.now (λ p. result.place ≡ p.place) }
    {
        Run {
            place: loaded.plan().place,
            knowledge: start,
        }
    }

    // The place of the node at which the run stands.
    pub fn place(self) -> usize
        ensures { result ≡ self.place }
    {
        self.place
    }

    // One step from the node at which the run stands.
    pub fn step(self, loaded: &Loaded) -> Step<K>
        ensures { IfLoads loaded.now (λ p. IfNode p self.place (λ q. Stepped K.worlds p.goal p.actions self.place self.knowledge q result)) }
    {
        let Run { place, knowledge } = self;
        match node_at(loaded, place) {
            Node::End => {
                if knows_all(&knowledge, loaded.goal()) {
                    Step::Ended
                } else {
                    Step::Failed {
                        place,
                        cause: Cause::GoalUnknown,
                    }
                }
            }
            Node::Doing { number, action } => {
                if knows_all(&knowledge, action.conditions()) {
                    let run = Run {
                        place: place.saturating_add(2),
                        knowledge: knowledge.apply(action),
                    };
                    Step::Did { number, run }
                } else {
                    Step::Failed {
                        place,
                        cause: Cause::UnmetConditions,
                    }
                }
            }
            Node::Reading { number, action } => {
                if knows_all(&knowledge, action.conditions) {
                    Step::Asks(Pending {
                        place,
                        number,
                        fluent: action.fluent,
                        knowledge,
                    })
                } else {
                    Step::Failed {
                        place,
                        cause: Cause::UnmetConditions,
                    }
                }
            }
            Node::Gap => Step::Failed {
                place,
                cause: Cause::Gap,
            },
        }
    }
}
