// Following a plan: every branch that is open, true before false.
ghost use Rattle.std.specs.Prelude.{◌≡◌, List, Ok};
ghost use Rattle.meaning.specs.Follows.{Follows, Judges};
ghost use Rattle.meaning.specs.Laws.{IfCovered};
ghost use Rattle.meaning.specs.Steps.{tree_of};
ghost use Rattle.meaning.specs.declared.answers.Verdict.TheVariants.{Holds};
ghost use Rattle.procedure.specs.Asked.{IfLoads};

use crate::pending::Branches;
use crate::run::{Run, Step};
use crate::waiting::Waiting;
use knowledge::kinds::Knowledge;
use meaning::answers::Verdict;
use procedure::loaded::Loaded;

// Whether the plan reaches its goal from the start, or the first failing node. It holds exactly when the walk along every
// agreeing list of readings ends well, and where it fails some agreeing list leads to that node with that cause (`judges`).
// From a start that a listed row covers it holds (`covered`).
pub fn follow<K: Knowledge>(loaded: &Loaded, start: K) -> Verdict
    ensures value { IfLoads loaded.now (λ p. Follows p.goal (tree_of p) (K.worlds start) result) }
    ensures covered { IfLoads loaded.now (λ p. IfCovered p (K.worlds start) (result ≡ Holds)) }
    ensures judges { IfLoads loaded.now (λ p. Judges p.goal (tree_of p) (K.worlds start) result) }
{
    let mut run = Run::begin(loaded, start);
    let mut waiting = Waiting::none(run);
    loop {
        match run.step(loaded) {
            Step::Did {
                number: _,
                run: next,
            } => run = next,
            Step::Asks(pending) => match pending.branches(loaded) {
                Branches::One(next) => run = next,
                Branches::Both(next, later) => {
                    waiting.push(later);
                    run = next;
                }
            },
            Step::Ended => match waiting.pop() {
                Some(next) => run = next,
                None => return Verdict::Holds,
            },
            Step::Failed { place, cause } => return Verdict::Fails { place, cause },
        }
    }
}
