// One world as knowledge: that world alone.
ghost use Rattle.one_world.specs.Alone.{Alone};
ghost use Rattle.std.proofs.Common.{rules, arith};

use crate::OneWorld;
use fluents::faults::{Fault, Refusal};
use fluents::literals::Literal;
use fluents::sets::has;
use knowledge::actions::DoingAction;
use knowledge::kinds::Knowledge;

impl Knowledge for OneWorld {
    ghost worlds = { Alone };

    ghost some = { first_of (Prim.search rules, Prim.grind (arith, Self.row.coded.inj)) };

    ghost fit = { first_of (Prim.search rules, Prim.grind (arith, Self.row.coded.inj)) };

    fn knows(&self, literal: Literal) -> bool {
        has(self.world, literal.fluent.index()) == literal.value
    }

    // The world loses Del and gains Add.
    fn apply(self, action: DoingAction) -> OneWorld {
        OneWorld::new(action.after(self.world))
    }

    // The same world, which has the literal already.
    fn learn(self, literal: Literal) -> Result<OneWorld, Fault> {
        if self.knows(literal) {
            Ok(self)
        } else {
            Err(Refusal::Contradiction.into())
        }
    }
}
