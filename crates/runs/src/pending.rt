// A reading that waits for its value, and where it leads.
ghost use Rattle.std.specs.Prelude.{◌≡◌, ℕ, IfOk, Ok};
ghost use Rattle.runs.specs.Stepping.{Settled, Branched, branch};
ghost use Rattle.procedure.specs.Asked.{IfLoads, IfAsks};

use crate::run::Run;
use fluents::faults::Fault;
use fluents::literals::{Fluent, Literal};
use knowledge::kinds::Knowledge;
use meaning::nodes::place_past;
use procedure::loaded::Loaded;

// A reading that waits for its value: the node's place, the number of its action, the fluent, and what is known.
#[derive(Clone, Copy)]
pub struct Pending<K> {
    pub(crate) place: usize,
    pub(crate) number: u8,
    pub(crate) fluent: Fluent,
    pub(crate) knowledge: K,
}

// Where a reading leads with nothing but what is known: into one branch, or into both, the one for true first. Named cases are
// plainer than a run with an optional second.
#[derive(Clone, Copy)]
pub enum Branches<K> {
    One(Run<K>),
    Both(Run<K>, Run<K>),
}

impl<K: Knowledge> Pending<K> {
    // The place of the reading node.
    pub fn place(self) -> usize
        ensures { result ≡ self.place }
    {
        self.place
    }

    // The number of the reading action.
    pub fn number(self) -> u8
        ensures { result ≡ self.number }
    {
        self.number
    }

    // The fluent that is read.
    pub fn fluent(self) -> Fluent
        ensures { result ≡ self.fluent }
    {
        self.fluent
    }

    // The value of the reading is learned, and the run goes on in its branch; a value that no world has is refused at the
    // reading node.
    pub fn settle(self, loaded: &Loaded, value: bool) -> Result<Run<K>, Fault>
        ensures learned { Settled K.worlds self value result }
        ensures goes { IfLoads loaded.now (λ p. IfAsks p self.place (λ t. IfOk result (λ run. run.place ≡ branch self.place value t))) }
    {
        let Pending {
            place: node,
            number: _,
            fluent,
            knowledge,
        } = self;
        let learned = knowledge.learn(Literal { fluent, value });
        let knowledge = learned.map_err(|fault| fault.refusal.at(node))?;
        let first = node.saturating_add(2);
        let place = if value {
            first
        } else {
            place_past(loaded, first)
        };
        Ok(Run { place, knowledge })
    }

    // The branches that what is known leaves open.
    pub fn branches(self, loaded: &Loaded) -> Branches<K>
        ensures { IfLoads loaded.now (λ p. IfAsks p self.place (λ t. Branched K.worlds self t result)) }
    {
        let Pending {
            place,
            number: _,
            fluent,
            knowledge,
        } = self;
        let halves = knowledge.split(fluent);
        let first = place.saturating_add(2);
        let when_true = Run {
            place: first,
            knowledge: halves.when_true,
        };
        if halves.has_false {
            let when_false = Run {
                place: place_past(loaded, first),
                knowledge: halves.when_false,
            };
            if halves.has_true {
                Branches::Both(when_true, when_false)
            } else {
                Branches::One(when_false)
            }
        } else {
            Branches::One(when_true)
        }
    }
}
