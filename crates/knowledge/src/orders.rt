// The orders by which the least rows and the distinct worlds are kept.
ghost use Rattle.knowledge.specs.Orders.{row_below, row_upto, world_below, world_upto};
ghost use Rattle.std.specs.Int.Bits.{and_self};
ghost use Rattle.std.proofs.lemmas.Bool.{eq-eqb, and_from, eqb-true, and_parts};
ghost use Rattle.fluents.proofs.Bits.{within_trans};
ghost use Rattle.std.proofs.Common.{rules};

use crate::states::Row;
use crate::worlds::World;
use least::Least;

// A world that is below itself alone, so that the least of such worlds are the distinct ones. Such
// worlds ascend as numbers.
#[derive(Clone, Copy, PartialEq, Eq, PartialOrd, Ord, Debug)]
pub struct Distinct {
    pub world: World,
}

// A row is below each row that implies it.
impl Least for Row {
    ghost below = { row_below };

    ghost upto = { row_upto };

    ghost below_reflexive = { λ x. and_from _ _ (eq-eqb _ _ (and_self x.trues)) (eq-eqb _ _ (and_self x.falses)) };

    ghost below_antisymmetric = { Prim.search rules };

    ghost below_transitive = { λ x y z p q.
        let a = and_parts _ _ p in
        let b = and_parts _ _ q in
        and_from _ _
        (eq-eqb _ _ (within_trans x.trues y.trues z.trues (eqb-true _ _ a.0) (eqb-true _ _ b.0)))
        (eq-eqb _ _ (within_trans x.falses y.falses z.falses (eqb-true _ _ a.1) (eqb-true _ _ b.1))) };

    ghost upto_antisymmetric = { Prim.search rules };

    ghost upto_transitive = { Prim.search rules };

    ghost upto_total = { Prim.search rules };

    ghost agrees = { Prim.search rules };

    fn is_below(&self, other: &Row) -> bool {
        self.trues & other.trues == self.trues && self.falses & other.falses == self.falses
    }

    fn is_upto(&self, other: &Row) -> bool {
        self <= other
    }
}

impl Least for Distinct {
    ghost below = { world_below };

    ghost upto = { world_upto };

    ghost below_reflexive = { Prim.search rules };

    ghost below_antisymmetric = { Prim.search rules };

    ghost below_transitive = { Prim.search rules };

    ghost upto_antisymmetric = { Prim.search rules };

    ghost upto_transitive = { Prim.search rules };

    ghost upto_total = { Prim.search rules };

    ghost agrees = { Prim.search rules };

    fn is_below(&self, other: &Distinct) -> bool {
        self == other
    }

    fn is_upto(&self, other: &Distinct) -> bool {
        self <= other
    }
}
