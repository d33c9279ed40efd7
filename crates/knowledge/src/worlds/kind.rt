// A list of worlds as knowledge: the worlds of the list.
ghost use Rattle.std.specs.Prelude.{ℕ, ◌^◌, ◌<◌, length, slice_index};
ghost use Rattle.std.proofs.Common.{sym, subst, ◌∙◌, arith};
ghost use Rattle.knowledge.specs.Listed.{Lists};
ghost use Rattle.std.proofs.ByRecursion.{has_get_or};
ghost use Rattle.std.proofs.lemmas.List.{length-take-le, get_or-take};
ghost use Rattle.knowledge.specs.Worlds.{list_of};

use super::{World, WorldList};
use crate::actions::DoingAction;
use crate::kinds::Knowledge;
use arrayvec::ArrayVec;
use fluents::faults::{Fault, Refusal};
use fluents::literals::Literal;
use fluents::sets::has;

impl Knowledge for WorldList {
    ghost worlds = { Lists };

    ghost some = { λ l.
        let long = length-take-le l.len l.worlds (omega (arith, l.few, l.long)) in
        (slice_index (list_of l) 0, has_get_or (list_of l) 0 0 (omega (arith, long, l.some))) };

    ghost fit = { λ l w h.
        let long = length-take-le l.len l.worlds (omega (arith, l.few, l.long)) in
        let at : h.0 < l.len = omega (arith, long, h.1) in
        subst (λ (n : ℕ). n < 2 ^ 64) (sym (get_or-take l.len l.worlds h.0 0 at) ∙ h.2 0) (l.fit h.0) };

    fn knows(&self, literal: Literal) -> bool {
        self.as_slice().iter().all(|world| has(*world, literal.fluent.index()) == literal.value)
    }

    fn apply(self, action: DoingAction) -> WorldList {
        let mut worlds: ArrayVec<World, 64> = ArrayVec::new();
        for world in self.as_slice() {
            worlds.push(action.after(*world));
        }
        // A list has 1 to 64 worlds, so the new one is made.
        WorldList::new(&worlds).unwrap()
    }

    fn learn(self, literal: Literal) -> Result<WorldList, Fault> {
        let mut worlds: ArrayVec<World, 64> = ArrayVec::new();
        for world in self.as_slice() {
            if has(*world, literal.fluent.index()) == literal.value {
                worlds.push(*world);
            }
        }
        WorldList::new(&worlds).map_err(|_| Refusal::Contradiction.into())
    }
}
