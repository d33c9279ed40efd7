// How partial states are made and read.
ghost use Rattle.std.specs.Prelude.{◌≡◌, MatchResult};
ghost use Rattle.fluents.specs.Refusals.{fault_at};
ghost use Rattle.fluents.specs.Sets.{Apart};
ghost use Rattle.fluents.specs.declared.faults.Refusal.TheVariants.{BadField};

use super::{PartialState, Row};
use fluents::faults::{Fault, Refusal};
use fluents::sets::Set;

impl PartialState {
    // The state with these literals, or a refusal exactly where a fluent would be both true and false.
    pub fn new(trues: Set, falses: Set) -> Result<PartialState, Fault>
        ensures { MatchResult result (λ s. Apart trues falses × (s.trues ≡ trues) × (s.falses ≡ falses)) (λ e. (Apart trues falses → ⊥) × (e ≡ fault_at BadField 0)) }
    {
        if trues & falses == 0 {
            Ok(PartialState { trues, falses })
        } else {
            Err(Refusal::BadField.into())
        }
    }

    // The fluents that are true.
    pub fn trues(self) -> Set
        ensures { result ≡ self.trues }
    {
        self.trues
    }

    // The fluents that are false.
    pub fn falses(self) -> Set
        ensures { result ≡ self.falses }
    {
        self.falses
    }
}

// The plain numbers of the state.
impl From<PartialState> for Row {
    ghost from_gives = { λ state row. (row.trues ≡ state.trues) × (row.falses ≡ state.falses) };

    fn from(state: PartialState) -> Row {
        Row {
            trues: state.trues,
            falses: state.falses,
        }
    }
}

// The state that the numbers stand for, or a refusal exactly where they stand for none.
impl TryFrom<Row> for PartialState {
    type Error = Fault;

    ghost try_from_gives = { λ row answer. MatchResult answer (λ s. Apart row.trues row.falses × (s.trues ≡ row.trues) × (s.falses ≡ row.falses)) (λ e. (Apart row.trues row.falses → ⊥) × (e ≡ fault_at BadField 0)) };

    fn try_from(row: Row) -> Result<PartialState, Fault> {
        PartialState::new(row.trues, row.falses)
    }
}
