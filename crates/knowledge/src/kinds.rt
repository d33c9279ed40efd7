// Kinds of knowledge: each means a set of worlds.
ghost use Rattle.std.specs.Prelude.{◌≡◌, ℕ, ◌^◌, ◌<◌, true, false, MatchBool, MatchResult, ◌↔◌, IsTrue};
ghost use Rattle.fluents.specs.Refusals.{fault_at};
ghost use Rattle.fluents.specs.declared.faults.Refusal.TheVariants.{Contradiction};
ghost use Rattle.knowledge.specs.Meaning.{HoldsIn, Knows, After, Learned, Same};

use crate::actions::DoingAction;
use fluents::faults::Fault;
use fluents::literals::{Fluent, Literal};

// Both halves of what was split on a fluent, and whether each is there. Flags beside the values, and no `Option`s, since
// a rule of the project asks for both values; an absent half repeats the knowledge.
#[derive(Clone, Copy)]
pub struct Halves<K> {
    pub has_true: bool,
    pub has_false: bool,
    pub when_true: K,
    pub when_false: K,
}

// A kind of knowledge. Code above it relies on the set of worlds alone.
pub trait Knowledge: Copy {
    // the worlds that are held possible
    ghost worlds: { Self → ℕ → Type 0 };

    // Whether every world has the literal.
    fn knows(&self, literal: Literal) -> bool
        ensures { IsTrue result ↔ Knows (worlds self.now) literal };

    // The worlds after the action; its conditions are the caller's matter.
    fn apply(self, action: DoingAction) -> Self
        ensures { Same (worlds result) (After action (worlds self)) };

    // The worlds that have the literal, or a refusal where there are none.
    fn learn(self, literal: Literal) -> Result<Self, Fault>
        ensures { MatchResult result (λ k. Same (worlds k) (Learned literal (worlds self))) (λ e. (e ≡ fault_at Contradiction 0) × ((w : ℕ) → worlds self w → HoldsIn literal w → ⊥)) };

    // The worlds that have the fluent and those that have it not, both together. A half without worlds is absent, and
    // repeats the knowledge that was split.
    fn split(self, fluent: Fluent) -> Halves<Self>
        ensures true_half { MatchBool result.has_true (Same (worlds result.when_true) (Learned (record { fluent = fluent; value = true }) (worlds self))) ((result.when_true ≡ self) × ((w : ℕ) → worlds self w → HoldsIn (record { fluent = fluent; value = true }) w → ⊥)) }
        ensures false_half { MatchBool result.has_false (Same (worlds result.when_false) (Learned (record { fluent = fluent; value = false }) (worlds self))) ((result.when_false ≡ self) × ((w : ℕ) → worlds self w → HoldsIn (record { fluent = fluent; value = false }) w → ⊥)) }
    {
        let on = self.learn(Literal {
            fluent,
            value: true,
        });
        let off = self.learn(Literal {
            fluent,
            value: false,
        });
        Halves {
            has_true: on.is_ok(),
            has_false: off.is_ok(),
            when_true: on.unwrap_or(self),
            when_false: off.unwrap_or(self),
        }
    }

    // there is always one
    ghost some: { (k : Self) → (w : ℕ) × worlds k w };

    ghost fit: { (k : Self) (w : ℕ) → worlds k w → w < 2 ^ 64 };
}
