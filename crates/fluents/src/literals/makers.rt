// How fluents and literals are made and read.
ghost use Rattle.std.specs.Prelude.{◌≡◌, ◌^◌, ◌<◌, ◌≤◌, MatchResult};
ghost use Rattle.fluents.specs.Refusals.{fault_at};
ghost use Rattle.fluents.specs.declared.faults.Refusal.TheVariants.{BadField};

use super::{Fluent, Literal};
use crate::faults::{Fault, Refusal};
use crate::sets::Set;

impl Fluent {
    // The fluent of this number, or a refusal where it is above 63.
    pub fn new(index: u8) -> Result<Fluent, Fault>
        ensures { MatchResult result (λ f. (index < 64) × (f.index ≡ index)) (λ e. (64 ≤ index) × (e ≡ fault_at BadField 0)) }
    {
        if index < 64 {
            Ok(Fluent { index })
        } else {
            Err(Refusal::BadField.into())
        }
    }

    pub fn index(self) -> u8
        ensures { result ≡ self.index }
    {
        self.index
    }

    // The set with this fluent alone.
    pub fn alone(self) -> Set
        ensures { result ≡ 2 ^ self.index }
    {
        1 << self.index
    }
}

impl Literal {
    // The literal of this fluent number, or a refusal where it is above 63.
    pub fn new(index: u8, value: bool) -> Result<Literal, Fault>
        ensures { MatchResult result (λ l. (index < 64) × (l.fluent.index ≡ index) × (l.value ≡ value)) (λ e. (64 ≤ index) × (e ≡ fault_at BadField 0)) }
    {
        let fluent = Fluent::new(index)?;
        Ok(Literal { fluent, value })
    }
}
