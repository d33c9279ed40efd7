// A partial state as knowledge: all worlds that extend it.
ghost use Rattle.std.specs.Prelude.{◌≡◌, ℕ, IfOk, if◌then◌else◌, MatchResult};
ghost use Rattle.std.proofs.Common.{◌∙◌};
ghost use Rattle.fluents.specs.Refusals.{fault_at};
ghost use Rattle.fluents.specs.declared.faults.Refusal.TheVariants.{Contradiction};
ghost use Rattle.fluents.specs.Sets.{only, union, minus};
ghost use Rattle.knowledge.specs.Meaning.{HoldsIn, After, Learned, Same};
ghost use Rattle.knowledge.specs.Extends.{Extends};
ghost use Rattle.std.specs.Int.Bits.{and_self};
ghost use Rattle.std.proofs.lemmas.Nat.{and_comm};

use super::PartialState;
use crate::actions::DoingAction;
use crate::kinds::Knowledge;
use fluents::faults::{Fault, Refusal};
use fluents::literals::Literal;
use fluents::sets::{has, minus};

impl Knowledge for PartialState {
    ghost worlds = { Extends };

    ghost some = { λ s. (s.trues, (s.fit, and_self s.trues, and_comm s.falses s.trues ∙ s.apart)) };

    ghost fit = { λ s w h. h.0 };

    fn knows(&self, literal: Literal) -> bool {
        let index = literal.fluent.index();
        if literal.value {
            has(self.trues, index)
        } else {
            has(self.falses, index)
        }
    }

    // What is true loses Del and gains Add, what is false loses Add and gains Del.
    fn apply(self, action: DoingAction) -> PartialState
        ensures meaning { Same (Extends result) (After action (Extends self)) }
        ensures fields { (result.trues ≡ union (minus self.trues action.del) action.add) × (result.falses ≡ union (minus self.falses action.add) action.del) }
    {
        let add = action.add();
        let del = action.del();
        PartialState {
            trues: minus(self.trues, del) | add,
            falses: minus(self.falses, add) | del,
        }
    }

    // The literal joins the state. One branch for each value, since the value decides which set gains the fluent.
    fn learn(self, literal: Literal) -> Result<PartialState, Fault>
        ensures meaning { MatchResult result (λ k. Same (Extends k) (Learned literal (Extends self))) (λ e. (e ≡ fault_at Contradiction 0) × ((w : ℕ) → Extends self w → HoldsIn literal w → ⊥)) }
        ensures fields { IfOk result (λ k. (k.trues ≡ (if literal.value then union self.trues (only literal.fluent.index) else self.trues)) × (k.falses ≡ (if literal.value then self.falses else union self.falses (only literal.fluent.index)))) }
    {
        let alone = literal.fluent.alone();
        if literal.value {
            if self.falses & alone != 0 {
                return Err(Refusal::Contradiction.into());
            }
            Ok(PartialState {
                trues: self.trues | alone,
                falses: self.falses,
            })
        } else {
            if self.trues & alone != 0 {
                return Err(Refusal::Contradiction.into());
            }
            Ok(PartialState {
                trues: self.trues,
                falses: self.falses | alone,
            })
        }
    }
}
