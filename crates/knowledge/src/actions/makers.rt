// How actions are made and read.
ghost use Rattle.std.specs.Prelude.{◌≡◌, ◌<◌, ◌≤◌, MatchResult};
ghost use Rattle.fluents.specs.Refusals.{fault_at};
ghost use Rattle.fluents.specs.Sets.{Apart};
ghost use Rattle.knowledge.specs.Meaning.{after};
ghost use Rattle.fluents.specs.declared.faults.Refusal.TheVariants.{BadField};

use super::{DoingAction, ReadingAction};
use crate::states::PartialState;
use crate::worlds::World;
use fluents::faults::{Fault, Refusal};
use fluents::literals::Fluent;
use fluents::sets::{Set, minus};

impl DoingAction {
    // The action with these effects, or a refusal exactly where it would make a fluent both true and false.
    pub fn new(conditions: PartialState, add: Set, del: Set) -> Result<DoingAction, Fault>
        ensures { MatchResult result (λ a. Apart add del × (a.conditions ≡ conditions) × (a.add ≡ add) × (a.del ≡ del)) (λ e. (Apart add del → ⊥) × (e ≡ fault_at BadField 0)) }
    {
        if add & del == 0 {
            Ok(DoingAction {
                conditions,
                add,
                del,
            })
        } else {
            Err(Refusal::BadField.into())
        }
    }

    pub fn conditions(self) -> PartialState
        ensures { result ≡ self.conditions }
    {
        self.conditions
    }

    // The fluents that the action makes true.
    pub fn add(self) -> Set
        ensures { result ≡ self.add }
    {
        self.add
    }

    // The fluents that the action makes false.
    pub fn del(self) -> Set
        ensures { result ≡ self.del }
    {
        self.del
    }

    // The world after the action: without Del, with Add; every other fluent keeps its value.
    pub fn after(self, world: World) -> World
        ensures { result ≡ after self world }
    {
        minus(world, self.del) | self.add
    }
}

impl ReadingAction {
    // The action that reads the fluent of this number, or a refusal exactly where it is above 63.
    pub fn new(conditions: PartialState, index: u8) -> Result<ReadingAction, Fault>
        ensures { MatchResult result (λ a. (index < 64) × (a.conditions ≡ conditions) × (a.fluent.index ≡ index)) (λ e. (64 ≤ index) × (e ≡ fault_at BadField 0)) }
    {
        let fluent = Fluent::new(index)?;
        Ok(ReadingAction { conditions, fluent })
    }
}
